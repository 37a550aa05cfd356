//! A list of calls of each kind and size: the history that a room records of it, the replies, and what editors make of these.
ghost use Rattle.std.specs.Prelude.{◌≤◌, ◌^◌};
ghost use Rattle.room_model.specs.History.{mark};

use crate::counts::Editors;
use crate::fixtures::empty_room;
use crate::turns::{CALLS, TURNS, Turn};
use room::{Call, Reply, Room};
use std::alloc::Global;
use std::test::Fail;

// Whether so many calls are recorded, under the first tickets.
fn has_recorded(room: &Room, calls: usize) -> bool {
    room.history().len() == calls && room.mark() == calls as u64
}

// The calls of each turn, with letters that are handed over behind it; then each session leaves.
fn asks_in_turns(alloc: Global, calls: &mut Vec<Call>) -> Result<(), Fail> {
    let mut turn = Turn::first();
    for _ in 0..TURNS {
        turn.asks(alloc, calls)?;
        calls.push(turn.hands(alloc)?)?;
        turn = turn.next(turn.size);
    }
    for s in 1..=TURNS {
        calls.push(Call::Leave { s })?;
    }
    Ok(())
}

// Whether the calls are recorded, beside none before.
fn runs(room: &mut Room, calls: &[Call], replies: &mut Vec<Reply>) -> Result<bool, Fail>
    requires { mark room.old.history ≤ 2 ^ 61 }
{
    let new = has_recorded(room, 0);
    room.run(calls, replies)?;
    Ok(new && has_recorded(room, calls.len()))
}

fn runs_in_a_room(
    alloc: Global,
    calls: &mut Vec<Call>,
    replies: &mut Vec<Reply>,
) -> Result<bool, Fail> {
    asks_in_turns(alloc, calls)?;
    runs(&mut empty_room(alloc)?, calls, replies)
}

// Whether these are the replies to a turn, and to what was handed over behind it, where these texts are read before and behind the
// turn; and whether the editor of its count, which is given them, has these texts then.
fn goes_as_told(
    editors: &mut Editors,
    turn: Turn,
    replies: &[Reply],
    before: &str,
    behind: &str,
) -> bool {
    let units = turn.counts_units();
    let mut all = replies.len() == CALLS + 1;
    for (place, reply) in replies.iter().enumerate() {
        all &= turn.is_told(place, reply, before, behind);
        all &= editors.follow(units, reply).is_ok();
        all &= place > 2 || editors.show(units, turn.version, before);
    }
    all && editors.show(units, turn.erased(), behind)
}

fn is_turn_told(
    alloc: Global,
    editors: &mut Editors,
    turn: Turn,
    replies: &[Reply],
) -> Result<bool, Fail> {
    let before = turn.text(alloc)?;
    let behind = turn.next(0).text(alloc)?;
    Ok(goes_as_told(editors, turn, replies, before.as_str(), behind.as_str()))
}

// Whether these are the replies to the calls of all turns, and editors follow them.
fn are_turns_told(alloc: Global, editors: &mut Editors, replies: &[Reply]) -> Result<bool, Fail> {
    let mut all = replies.len() == (CALLS + 2) * TURNS as usize;
    let mut turn = Turn::first();
    let mut rest = replies;
    for _ in 0..TURNS {
        let (told, later) = rest.split_at(rest.len().min(CALLS + 1));
        all &= is_turn_told(alloc, editors, turn, told)?;
        turn = turn.next(turn.size);
        rest = later;
    }
    Ok(all && rest.iter().all(|reply| matches!(reply, Reply::Left)))
}

// Whether the calls of all turns are recorded and answered.
fn all_is_told(
    alloc: Global,
    calls: &mut Vec<Call>,
    replies: &mut Vec<Reply>,
) -> Result<bool, Fail> {
    let recorded = runs_in_a_room(alloc, calls, replies)?;
    let told = are_turns_told(alloc, &mut Editors::new(alloc), replies)?;
    Ok(recorded && told)
}

#[test]
fn calls_of_every_kind_and_size(rt: HostRuntime) -> Result<(), Fail> {
    let alloc = rt.alloc();
    assert!(rt; all_is_told(alloc, &mut Vec::new(alloc), &mut Vec::new(alloc))?);
    Ok(())
}
