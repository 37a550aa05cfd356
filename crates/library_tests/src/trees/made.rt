//! How many nodes an insertion and a hiding make, and how deep each element then lies, beside the recursive form.

use crate::dice::Dice;
use crate::trees::recursive::Recursive;
use crate::trees::{below, empty, found, hide, put, ranks};
use counted_tree::{Steps, VersionTree};
use std::alloc::{AllocError, Global};
use std::test::Fail;

const CALLS: u32 = 3_000;

// Where the calls of a sequence put elements in.
#[derive(Clone, Copy, PartialEq, Eq)]
enum Shape {
    BehindTheLast,
    AtTheFront,
    AtBothEndsByTurns,
    InTheMiddle,
    AtRandom,
    // One behind the other, from a new place on about each so many.
    Typed(u32),
}

const SHAPES: [Shape; 7] = [
    Shape::BehindTheLast,
    Shape::AtTheFront,
    Shape::AtBothEndsByTurns,
    Shape::InTheMiddle,
    Shape::AtRandom,
    Shape::Typed(8),
    Shape::Typed(60),
];

impl Shape {
    // The place of the next insertion among so many elements, where the last one was at this place.
    fn place(self, elements: u32, last: u32, dice: &mut Dice) -> u32 {
        match self {
            Shape::BehindTheLast => elements,
            Shape::AtTheFront => 0,
            Shape::AtBothEndsByTurns => { if elements % 2 == 0 { 0 } else { elements } }
            Shape::InTheMiddle => elements / 2,
            Shape::AtRandom => below(dice, elements.saturating_add(1)),
            Shape::Typed(often) => {
                if below(dice, often) == 0 {
                    below(dice, elements.saturating_add(1))
                } else {
                    last.saturating_add(1).min(elements)
                }
            }
        }
    }
}

// Puts an element in at the place, in both.
fn put_in_both(
    tree: &mut VersionTree,
    recursive: &mut Recursive,
    place: u32,
) -> Result<(), AllocError> {
    let before = match place.checked_sub(1) {
        None => None,
        Some(last) => match recursive.at(last) {
            None => return Ok(()),
            Some((elem, _)) => Some(elem),
        },
    };
    let elem = tree.elements() as u32;
    if put(tree, before, 7, false) {
        recursive.insert(place, elem)?;
    }
    Ok(())
}

/// Hides the element at the place, if it is shown, in both.
pub(crate) fn hide_in_both(
    tree: &mut VersionTree,
    recursive: &mut Recursive,
    place: u32,
) -> Result<(), AllocError> {
    let Some((elem, _)) = recursive.at(place) else {
        return Ok(());
    };
    let Some((rank, _)) = ranks(tree, elem) else {
        return Ok(());
    };
    let is_shown = found(tree, tree.newest(), rank) == Some(elem);
    if is_shown && hide(tree, rank) == Some(elem) {
        recursive.hide(place)?;
    }
    Ok(())
}

/// How many nodes the tree looks at to tell the rank of an element, if it is there: all on the way to it.
pub(crate) fn looks(tree: &VersionTree, elem: u32) -> Option<u64> {
    if elem as usize >= tree.elements() {
        return None;
    }
    let mut steps = Steps::new();
    let _rank = tree.rank(elem, &mut steps);
    Some(steps.count())
}

// Whether each element lies as deep in the tree.
fn is_as_deep(tree: &VersionTree, recursive: &Recursive) -> bool {
    let mut all = true;
    for place in 0..tree.elements() as u32 {
        let Some((elem, depth)) = recursive.at(place) else {
            return false;
        };
        all &= looks(tree, elem) == Some(depth);
    }
    all
}

// Whether both make as many nodes at each call, one in so many of which hides an element (0: none does), and all elements lie as deep
// now and then.
fn makes_as_many(
    tree: &mut VersionTree,
    recursive: &mut Recursive,
    shape: Shape,
    hidings: usize,
) -> Result<bool, AllocError> {
    let mut dice = Dice::new(23);
    let mut last = 0u32;
    let mut all = true;
    for call in 1..CALLS + 1 {
        let elements = tree.elements() as u32;
        if hidings > 0 && dice.roll(hidings) == 0 {
            hide_in_both(tree, recursive, below(&mut dice, elements))?;
        } else {
            last = shape.place(elements, last, &mut dice);
            put_in_both(tree, recursive, last)?;
        }
        all &= tree.nodes() == recursive.nodes();
        if call % 500 == 0 {
            all &= is_as_deep(tree, recursive);
        }
    }
    Ok(all)
}

fn each_makes_as_many(alloc: Global, hidings: usize) -> Result<bool, AllocError> {
    let mut all = true;
    for shape in SHAPES {
        let mut tree = empty(alloc, CALLS as usize)?;
        let mut recursive = Recursive::new(alloc);
        all &= makes_as_many(&mut tree, &mut recursive, shape, hidings)?;
        all &= tree.newest() > CALLS as usize / 2;
    }
    Ok(all)
}

#[test]
fn insertions_make_as_many_nodes_as_by_recursion(rt: HostRuntime) -> Result<(), Fail> {
    assert!(rt; each_makes_as_many(rt.alloc(), 0)?);
    Ok(())
}

#[test]
fn hidings_among_them_make_as_many_nodes_as_by_recursion(rt: HostRuntime) -> Result<(), Fail> {
    assert!(rt; each_makes_as_many(rt.alloc(), 3)?);
    Ok(())
}
