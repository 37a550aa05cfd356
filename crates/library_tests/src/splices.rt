//! The worked cases of texts that edits are applied to, in characters and in UTF-16 code units.
use opid::{Edit, Refusal};
use splice::{EditedText, Text, UnitText};
use std::test::Fail;

fn is(text: &Text, characters: &[char]) -> bool {
    text.characters() == characters
}

// `abc`, of which `b` is replaced, and a character of two units at the end.
fn splices_each(text: &mut Text) -> Result<bool, Refusal> {
    text.apply(&Edit::Del(1))?;
    text.apply(&Edit::Ins(1, 'X'))?;
    text.apply(&Edit::Nop)?;
    let all = is(text, &['a', 'X', 'c']);
    text.apply(&Edit::Ins(3, '\u{1F600}'))?;
    Ok(all && text.len() == 4 && !text.is_empty())
}

#[test]
fn splices(rt: HostRuntime) -> Result<(), Fail> {
    let mut text = Text::start(rt.alloc(), "abc")?;
    assert!(rt; splices_each(&mut text)?);
    Ok(())
}

fn begins(text: &mut Text) -> Result<bool, Refusal> {
    let empty = text.is_empty();
    text.apply(&Edit::Ins(0, 'a'))?;
    Ok(empty && is(text, &['a']))
}

#[test]
fn starts_empty(rt: HostRuntime) -> Result<(), Fail> {
    assert!(rt; begins(&mut Text::new(rt.alloc()))?);
    Ok(())
}

fn refuses_outside(text: &mut Text) -> bool {
    let mut all = text.apply(&Edit::Ins(3, 'c')) == Err(Refusal::BadPlace);
    all &= text.apply(&Edit::Del(2)) == Err(Refusal::BadPlace);
    all &= text.apply(&Edit::DelUnits(0, 1)) == Err(Refusal::BadPlace);
    all && is(text, &['a', 'b'])
}

#[test]
fn refuses_what_lies_outside(rt: HostRuntime) -> Result<(), Fail> {
    let mut text = Text::start(rt.alloc(), "ab")?;
    assert!(rt; refuses_outside(&mut text));
    Ok(())
}

// A pair and `a`, of which the pair and then the last are deleted.
fn splices_units(text: &mut UnitText) -> Result<bool, Refusal> {
    text.apply(&Edit::Ins(2, 'b'))?;
    text.apply(&Edit::Nop)?;
    let all = text.units() == [0xD83D, 0xDE00, 0x62, 0x61].as_slice();
    text.apply(&Edit::DelUnits(0, 2))?;
    text.apply(&Edit::DelUnits(1, 1))?;
    text.apply(&Edit::Ins(1, '\u{10000}'))?;
    Ok(all && text.units() == [0x62, 0xD800, 0xDC00].as_slice())
}

#[test]
fn splices_in_units(rt: HostRuntime) -> Result<(), Fail> {
    let mut text = UnitText::start(rt.alloc(), "\u{1F600}a")?;
    assert!(rt; splices_units(&mut text)?);
    Ok(())
}

// Whether the text has just these units.
fn are_units(text: &UnitText, units: &[u16]) -> bool {
    text.len() == units.len() && text.units() == units
}

#[test]
fn counts_the_greatest_characters(rt: HostRuntime) -> Result<(), Fail> {
    let text = UnitText::start(rt.alloc(), "\u{FFFF}\u{10FFFF}")?;
    assert!(rt; are_units(&text, &[0xFFFF, 0xDBFF, 0xDFFF]));
    Ok(())
}

fn refuses(text: &mut UnitText, edit: Edit) -> bool {
    text.apply(&edit) == Err(Refusal::BadPlace)
}

// In a pair and `a`.
fn refuses_each(text: &mut UnitText) -> bool {
    let mut all = refuses(text, Edit::Ins(1, 'b'));
    all &= refuses(text, Edit::Ins(4, 'b'));
    all &= refuses(text, Edit::DelUnits(0, 1));
    all &= refuses(text, Edit::DelUnits(1, 1));
    all &= refuses(text, Edit::DelUnits(2, 2));
    all &= refuses(text, Edit::DelUnits(3, 1));
    all &= refuses(text, Edit::Del(0));
    all && text.len() == 3
}

#[test]
fn refuses_what_is_no_place(rt: HostRuntime) -> Result<(), Fail> {
    let mut text = UnitText::start(rt.alloc(), "\u{1F600}a")?;
    assert!(rt; refuses_each(&mut text));
    Ok(())
}
