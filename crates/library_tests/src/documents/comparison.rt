//! A log of 2,000 operations of five sites beside the plain program of the definitions, at each of its versions.
use crate::dice::Dice;
use crate::documents::checked::{
    edit_at, edit_units_at, element_at, integrate, len_at, next_op, op_at, unit_at, units_at,
};
use crate::plain::{Insertion, Plain, edit_of, edit_units_of};
use causal_clock::{Clock, Op};
use characters::Characters;
use opid::{OpKind, Refusal, Site, Stamp};
use std::alloc::{AllocError, Global};
use std::test::Fail;
use versions::Doc;

const MANY: u32 = 2_000;

// A deletion of any element, or an insertion behind any that is older, for the site's next stamp.
fn choose(plain: &Plain, dice: &mut Dice, next: Stamp) -> OpKind {
    let chosen = plain.nth(dice.roll(plain.len().saturating_add(1)));
    let ch = match dice.roll(4) {
        0 => 'a',
        1 => '\u{E9}',
        2 => '\u{1F600}',
        _ => 'b',
    };
    match chosen {
        None => OpKind::Ins { parent: None, ch },
        Some(chosen) => {
            let target = chosen.stamp;
            let parent = target;
            if dice.roll(10) < 4 {
                OpKind::Del { target }
            } else if target.is_before(next) {
                OpKind::Ins {
                    parent: Some(parent),
                    ch,
                }
            } else {
                OpKind::Ins { parent: None, ch }
            }
        }
    }
}

// What the site knows: its own operations, and now and then all that are there.
fn known(doc: &Doc, clocks: &[Clock], number: usize, dice: &mut Dice) -> Clock {
    match clocks.get(number) {
        None => doc.clock(),
        Some(clock) => {
            if dice.roll(4) == 0 {
                doc.clock()
            } else {
                *clock
            }
        }
    }
}

// One more operation of one of five sites, in the document and in the plain program.
fn step(
    alloc: Global,
    doc: &mut Doc,
    plain: &mut Plain,
    clocks: &mut [Clock],
    dice: &mut Dice,
) -> Result<(), Refusal> {
    let number = dice.roll(5);
    let site = Site::new(number as u8)?;
    let clock = known(doc, clocks, number, dice);
    let next = Stamp {
        sum: clock.sum().saturating_add(1),
        site,
    };
    let kind = choose(plain, dice, next);
    let op = next_op(&clock, site, kind)?;
    let _edit = integrate(doc, &op)?;
    plain.add(alloc, op.stamp(), op.kind())?;
    if let Some(own) = clocks.get_mut(number) {
        *own = op.clock();
    }
    Ok(())
}

// Fills the document, and the plain program beside it.
fn fill(alloc: Global, doc: &mut Doc, plain: &mut Plain, dice: &mut Dice) -> Result<(), Refusal> {
    let mut clocks = [Clock::zero(); 5];
    for _ in 0..MANY {
        step(alloc, doc, plain, &mut clocks, dice)?;
    }
    Ok(())
}

// Fills the document.
pub(crate) fn fill_alone(alloc: Global, doc: &mut Doc) -> Result<(), Refusal> {
    fill(alloc, doc, &mut Plain::new(alloc), &mut Dice::new(1))
}

// Whether the text is that of these elements.
fn is_text_of(text: &Characters, visible: &[Insertion]) -> bool {
    let mut chars = text.as_str().chars();
    for x in visible {
        if chars.next() != Some(x.ch) {
            return false;
        }
    }
    chars.next().is_none()
}

// Whether the version has these elements, each at its place, and none behind them.
fn has_elements(doc: &Doc, version: u32, visible: &[Insertion]) -> bool {
    for (place, x) in visible.iter().enumerate() {
        if element_at(doc, version, place) != Some(x.stamp) {
            return false;
        }
    }
    element_at(doc, version, visible.len()).is_none()
}

// Whether the version shows these elements: its length, its text, and the element at each place.
fn shows(doc: &Doc, version: u32, visible: &[Insertion]) -> Result<bool, Refusal> {
    let has_text = len_at(doc, version) == Some(visible.len())
        && is_text_of(&doc.reading(version)?, visible);
    Ok(has_text && has_elements(doc, version, visible))
}

// The UTF-16 units of these elements, in order: the stamp of each, and 1 for the second of a pair, else 0.
fn units_of(alloc: Global, visible: &[Insertion]) -> Result<Vec<(Stamp, u8)>, AllocError> {
    let mut units = Vec::new(alloc);
    for x in visible {
        units.push((x.stamp, 0))?;
        if x.ch > '\u{FFFF}' {
            units.push((x.stamp, 1))?;
        }
    }
    Ok(units)
}

// Whether the version shows these elements in UTF-16 units: how many there are, and those at some places.
fn has_units(
    alloc: Global,
    doc: &Doc,
    version: u32,
    visible: &[Insertion],
    dice: &mut Dice,
) -> Result<bool, AllocError> {
    let units = units_of(alloc, visible)?;
    if units_at(doc, version) != Some(units.len()) {
        return Ok(false);
    }
    for _ in 0..16 {
        let place = dice.roll(units.len().saturating_add(1));
        if unit_at(doc, version, place) != units.get(place).copied() {
            return Ok(false);
        }
    }
    Ok(true)
}

// Whether the operation made the edit between what was visible before it and what is visible after it, in either count.
fn made(doc: &Doc, version: u32, op: &Op, before: &[Insertion], after: &[Insertion]) -> bool {
    let edit = edit_of(op.stamp(), op.kind(), before, after);
    let edit_units = edit_units_of(op.stamp(), op.kind(), before, after);
    edit_at(doc, version) == Some(edit) && edit_units_at(doc, version) == Some(edit_units)
}

// Whether the version shows these elements, in either count.
fn shows_in_both(
    alloc: Global,
    doc: &Doc,
    version: u32,
    visible: &[Insertion],
    dice: &mut Dice,
) -> Result<bool, Refusal> {
    let all = shows(doc, version, visible)?;
    Ok(has_units(alloc, doc, version, visible, dice)? && all)
}

// Whether the operation behind the version made the edit and the version that the plain program has after it, which is then
// shown.
fn is_next(
    alloc: Global,
    doc: &Doc,
    plain: &mut Plain,
    version: u32,
    shown: &mut Vec<Insertion>,
    dice: &mut Dice,
) -> Result<bool, Refusal> {
    let op = op_at(doc, version).ok_or(Refusal::BadVersion)?;
    plain.add(alloc, op.stamp(), op.kind())?;
    let next = version.saturating_add(1);
    let after = plain.visible(alloc)?;
    let all = made(doc, next, &op, shown, &after);
    *shown = after;
    Ok(shows_in_both(alloc, doc, next, shown, dice)? && all)
}

// Whether each version is what the plain program has, and the last of them is long.
fn is_as_defined(
    alloc: Global,
    doc: &Doc,
    plain: &mut Plain,
    shown: &mut Vec<Insertion>,
    dice: &mut Dice,
) -> Result<bool, Refusal> {
    let mut all = shows(doc, 0, shown)?;
    for version in 0..MANY {
        all &= is_next(alloc, doc, plain, version, shown, dice)?;
    }
    Ok(all && shown.len() > 500)
}

fn is_as_the_plain_program(alloc: Global, doc: &Doc) -> Result<bool, Refusal> {
    let (mut plain, mut shown) = (Plain::new(alloc), Vec::new(alloc));
    is_as_defined(alloc, doc, &mut plain, &mut shown, &mut Dice::new(2))
}

fn a_long_one_is_as_defined(alloc: Global, doc: &mut Doc) -> Result<bool, Refusal> {
    fill_alone(alloc, doc)?;
    is_as_the_plain_program(alloc, doc)
}

fn each_is_as_defined(alloc: Global) -> Result<bool, Refusal> {
    a_long_one_is_as_defined(alloc, &mut Doc::new(alloc))
}

#[test]
fn each_version_is_as_defined(rt: HostRuntime) -> Result<(), Fail> {
    assert!(rt; each_is_as_defined(rt.alloc())?);
    Ok(())
}
