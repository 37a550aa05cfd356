//! Editors of a room that fall behind and catch up, in either count of places.
use crate::fixtures::{empty_room, insertion, shows};
use editors::{Editor, UnitEditor};
use opid::Refusal;
use room::{Call, Desk, Reply, RoomDesk};
use std::alloc::Global;
use std::test::Fail;

/// An editor of either count.
#[derive(Drop)]
pub(crate) struct Editors {
    characters: Editor,
    units: UnitEditor,
}

impl Editors {
    /// Editors of the empty text.
    pub(crate) fn new(alloc: Global) -> Editors {
        Editors {
            characters: Editor::new(alloc),
            units: UnitEditor::new(alloc),
        }
    }

    /// The editor of the count is given the reply.
    pub(crate) fn follow(&mut self, units: bool, reply: &Reply) -> Result<(), Refusal> {
        if units {
            self.units.follow(reply)
        } else {
            self.characters.follow(reply)
        }
    }

    /// Whether that one has the text at the version.
    pub(crate) fn show(&self, units: bool, version: u32, text: &str) -> bool {
        if units {
            self.units.version() == u64::from(version) && shows_units(&self.units, text)
        } else {
            self.characters.version() == u64::from(version) && shows(&self.characters, text)
        }
    }

    // The editor of the count is given the reply to the call.
    fn ask(&mut self, desk: &mut RoomDesk, units: bool, call: Call) -> Result<(), Refusal> {
        let Ok(reply) = desk.call(call) else {
            return Err(Refusal::Memory);
        };
        let followed = self.follow(units, &reply);
        drop(reply);
        followed
    }
}

// Whether the editor has the text.
fn shows_units(editor: &UnitEditor, text: &str) -> bool {
    editor
        .text()
        .units()
        .iter()
        .copied()
        .eq(text.encode_utf16())
}

// The session pulls.
fn pull(s: u32, have: u32, max: u32) -> Call {
    Call::Pull { s, have, max }
}

// `abc` is put in, and two of its three edits are pulled; then `X` is put in behind the first, and the rest is pulled.
fn falls_behind(alloc: Global, desk: &mut RoomDesk, both: &mut Editors) -> Result<bool, Refusal> {
    both.ask(desk, false, Call::Join { units: false })?;
    both.ask(desk, false, insertion(alloc, 1, 1, 0, 0, "abc")?)?;
    both.ask(desk, false, pull(1, 0, 2))?;
    let behind = both.show(false, 2, "ab");
    both.ask(desk, false, insertion(alloc, 1, 2, 2, 1, "X")?)?;
    both.ask(desk, false, pull(1, 2, 64))?;
    Ok(behind && both.show(false, 4, "aXbc"))
}

// Session 1 deletes the first two units of version 2, as its third submission.
fn deletion() -> Call {
    Call::Del {
        s: 1,
        n: 3,
        v: 2,
        k: 0,
        c: 2,
    }
}

// A pair and `a` are put in, and pulled; then `b` is put in behind the pair, which is deleted, and the rest is pulled.
fn deletes_a_pair(alloc: Global, desk: &mut RoomDesk, both: &mut Editors) -> Result<bool, Refusal> {
    both.ask(desk, true, Call::Join { units: true })?;
    both.ask(desk, true, insertion(alloc, 1, 1, 0, 0, "\u{1F600}a")?)?;
    both.ask(desk, true, pull(1, 0, 64))?;
    let behind = both.show(true, 2, "\u{1F600}a");
    both.ask(desk, true, insertion(alloc, 1, 2, 2, 2, "b")?)?;
    both.ask(desk, true, deletion())?;
    both.ask(desk, true, pull(1, 2, 64))?;
    Ok(behind && both.show(true, 4, "ba"))
}

// Both sessions join, the first in characters and the second in UTF-16 units, and read the text that the first puts in.
fn read_both(alloc: Global, desk: &mut RoomDesk, both: &mut Editors) -> Result<bool, Refusal> {
    both.ask(desk, false, Call::Join { units: false })?;
    both.ask(desk, true, Call::Join { units: true })?;
    both.ask(desk, false, insertion(alloc, 1, 1, 0, 0, "\u{1F600}ax")?)?;
    both.ask(desk, false, pull(1, 0, 64))?;
    both.ask(desk, true, pull(2, 0, 64))?;
    Ok(both.show(false, 3, "\u{1F600}ax") && both.show(true, 3, "\u{1F600}ax"))
}

// Both type behind the pair of version 3 at once, and read the same.
fn type_at_once(alloc: Global, desk: &mut RoomDesk, both: &mut Editors) -> Result<bool, Refusal> {
    let before = read_both(alloc, desk, both)?;
    both.ask(desk, false, insertion(alloc, 1, 2, 3, 1, "\u{10000}")?)?;
    both.ask(desk, true, insertion(alloc, 2, 1, 3, 2, "\u{10FFFF}c")?)?;
    both.ask(desk, false, pull(1, 3, 64))?;
    both.ask(desk, true, pull(2, 3, 64))?;
    let text = "\u{1F600}\u{10FFFF}c\u{10000}ax";
    Ok(before && both.show(false, 6, text) && both.show(true, 6, text))
}

// Asks something of an empty room and new editors. (What a function owns costs its proof at each step, so all others borrow it.)
fn of_an_empty_room<F: Fn(Global, &mut RoomDesk, &mut Editors) -> Result<bool, Refusal>>(
    alloc: Global,
    asked: F,
) -> Result<bool, Refusal>
    requires { F.IsAlwaysCallable asked }
{
    let room = empty_room(alloc)?;
    asked(alloc, &mut RoomDesk::new(room), &mut Editors::new(alloc))
}

#[test]
fn editors_of_either_count_and_of_both(rt: HostRuntime) -> Result<(), Fail> {
    let alloc = rt.alloc();
    assert!(rt; of_an_empty_room(alloc, falls_behind)?);
    assert!(rt; of_an_empty_room(alloc, deletes_a_pair)?);
    assert!(rt; of_an_empty_room(alloc, type_at_once)?);
    Ok(())
}
