//! How many nodes the calls look at, beside how deep the elements lie in the recursive form.

use crate::dice::Dice;
use crate::trees::made::{hide_in_both, looks};
use crate::trees::recursive::Recursive;
use crate::trees::{below, empty, put, ranks};
use counted_tree::{Steps, VersionTree};
use std::alloc::{AllocError, Global};
use std::test::Fail;

const CALLS: u32 = 1_500;

// Puts the next element in behind one that is there, or before all others, and tells how many nodes were looked at.
fn put_behind(tree: &mut VersionTree, before: Option<u32>, wide: bool) -> Option<u64> {
    let n = tree.elements();
    if tree.room() == 0 {
        return None;
    }
    let mut steps = Steps::new();
    if let Some(e) = before {
        if e as usize >= n {
            return None;
        }
        tree.insert_after(Some(e), n as u32, 7, wide, &mut steps);
    } else {
        tree.insert_after(None, n as u32, 7, wide, &mut steps);
    }
    Some(steps.count())
}

// Puts an element in at the place, in both. Whether the tree looks at no fewer nodes than lead to the element before, and at no more
// than four for each that it makes.
fn insert(
    tree: &mut VersionTree,
    recursive: &mut Recursive,
    place: u32,
    wide: bool,
) -> Result<bool, AllocError> {
    let elem = tree.elements() as u32;
    let made = tree.nodes();
    let before = match place.checked_sub(1) {
        None => None,
        Some(last) => recursive.at(last),
    };
    let Some(looked) = put_behind(tree, before.map(|b| b.0), wide) else {
        return Ok(false);
    };
    recursive.insert(place, elem)?;
    let most = tree.nodes().saturating_sub(made).saturating_mul(4) as u64;
    let least = match before {
        Some((_, depth)) => depth,
        None => 0,
    };
    Ok(least <= looked && looked <= most)
}

// Random insertions in both, among which one call in so many hides an element (0: none does). Whether each insertion looks at as few
// nodes as it may.
fn grow(
    tree: &mut VersionTree,
    recursive: &mut Recursive,
    hidings: usize,
) -> Result<bool, AllocError> {
    let mut dice = Dice::new(31);
    let mut all = true;
    for _ in 0..CALLS {
        let elements = tree.elements() as u32;
        if hidings > 0 && dice.roll(hidings) == 0 {
            hide_in_both(tree, recursive, below(&mut dice, elements))?;
        } else {
            let place = below(&mut dice, elements.saturating_add(1));
            all &= insert(tree, recursive, place, dice.roll(3) == 0)?;
        }
    }
    Ok(all)
}

#[test]
fn an_insertion_looks_at_four_nodes_at_most_for_each_that_it_makes(
    rt: HostRuntime,
) -> Result<(), Fail> {
    let mut tree = empty(rt.alloc(), CALLS as usize)?;
    assert!(rt; grow(&mut tree, &mut Recursive::new(rt.alloc()), 4)?);
    Ok(())
}

// How many units of the element the newest version is found to show, each by so many looks; nothing where it takes more or fewer.
fn units_found_by(tree: &VersionTree, elem: u32, looks: u64) -> Option<usize> {
    let (place, unit) = ranks(tree, elem)?;
    let newest = tree.newest();
    let mut by_place = Steps::new();
    if tree.find(newest, place, &mut by_place) != Some(elem) {
        return Some(0);
    }
    let mut by_unit = Steps::new();
    let mut by_second = Steps::new();
    let first = tree.find_units(newest, unit, &mut by_unit) == Some((elem, 0));
    let second = tree.find_units(newest, unit.saturating_add(1), &mut by_second) == Some((elem, 1));
    if !first || by_place.count() != looks || by_unit.count() != looks {
        return None;
    }
    if !second {
        return Some(1);
    }
    if by_second.count() == looks {
        Some(2)
    } else {
        None
    }
}

// How many nodes the tree looks at to tell how many units stand before an element, if it is there.
fn looks_for_units(tree: &VersionTree, elem: u32) -> Option<u64> {
    if elem as usize >= tree.elements() {
        return None;
    }
    let mut steps = Steps::new();
    let _rank = tree.rank_units(elem, &mut steps);
    Some(steps.count())
}

// Whether each element is found, and its ranks are told, by as many looks as nodes lead to it, and all that is shown is found.
fn looks_along_the_way(alloc: Global) -> Result<bool, AllocError> {
    let mut tree = empty(alloc, CALLS as usize)?;
    let mut recursive = Recursive::new(alloc);
    grow(&mut tree, &mut recursive, 3)?;
    let mut units = 0usize;
    for place in 0..tree.elements() as u32 {
        let Some((elem, depth)) = recursive.at(place) else {
            return Ok(false);
        };
        let Some(found) = units_found_by(&tree, elem, depth) else {
            return Ok(false);
        };
        if looks(&tree, elem) != Some(depth) || looks_for_units(&tree, elem) != Some(depth) {
            return Ok(false);
        }
        units = units.saturating_add(found);
    }
    Ok(units > CALLS as usize / 2 && units == tree.units(tree.newest()))
}

#[test]
fn look_ups_look_at_the_nodes_on_the_way_alone(rt: HostRuntime) -> Result<(), Fail> {
    assert!(rt; looks_along_the_way(rt.alloc())?);
    Ok(())
}

// Whether what the newest version shows is told by one look at each node, where nothing is hidden.
fn tells_by_one_look_each(alloc: Global) -> Result<bool, AllocError> {
    let mut tree = empty(alloc, CALLS as usize)?;
    grow(&mut tree, &mut Recursive::new(alloc), 0)?;
    let mut elems: Vec<u32> = Vec::new(alloc);
    let mut steps = Steps::new();
    tree.push_shown(tree.newest(), &mut elems, &mut steps)?;
    Ok(elems.len() == CALLS as usize && steps.count() == u64::from(CALLS))
}

#[test]
fn a_reading_looks_at_each_node_once(rt: HostRuntime) -> Result<(), Fail> {
    assert!(rt; tells_by_one_look_each(rt.alloc())?);
    Ok(())
}

// The last element that one passes whose key is above 6, and how many nodes are looked at.
fn last_above_six(tree: &VersionTree, before: Option<u32>) -> Option<(u32, u64)> {
    let mut steps = Steps::new();
    let last = match before {
        Some(e) => {
            if e as usize >= tree.elements() {
                return None;
            }
            tree.last_greater(Some(e), 6, &mut steps)?
        }
        None => tree.last_greater(None, 6, &mut steps)?,
    };
    Some((last, steps.count()))
}

// Of 0, 1 and 2 with keys of 7, 1 stands above the others. From before all, the whole left side is passed by a look at its top: three
// nodes. From 0 on, one goes down to it by two, passes the right side by one, and then goes to the last by two.
#[test]
fn whole_sides_with_greater_keys_are_passed_by_one_look(rt: HostRuntime) -> Result<(), Fail> {
    let mut tree = empty(rt.alloc(), 3)?;
    let made = put(&mut tree, None, 7, false)
        && put(&mut tree, Some(0), 7, false)
        && put(&mut tree, Some(1), 7, false);
    assert!(rt; made);
    assert!(rt; last_above_six(&tree, None) == Some((2, 3)));
    assert!(rt; last_above_six(&tree, Some(0)) == Some((2, 5)));
    Ok(())
}
