//! A room that threads share: calls, tries, meetings and looks of its passes.
ghost use Rattle.std.specs.Prelude.{IfOk};
ghost use Rattle.shared_room.specs.Views.{IsPassOf};

use causal_clock::Op;
use opid::{Refusal, Site};
use room::{Call, Characters, Reply, Room};
use shared_room::{Look, Pass, SharedRoom};
use std::alloc::{AllocError, Global};
use std::sync::Wait;
use std::test::Fail;

// An empty room of site 0 that is shared.
pub(crate) fn shared(alloc: Global) -> Result<(SharedRoom, Pass), Fail>
    ensures { IfOk result (λ r. IsPassOf r.0 r.1) }
{
    Ok(SharedRoom::new(alloc, Room::new(alloc, Site::new(0)?))?)
}

// The room that was shared, if the pass has a draw and no ticket is open.
fn closed(room: SharedRoom, pass: Pass) -> Option<Room>
    requires { IsPassOf room pass }
{
    if pass.left() == 0 {
        return None;
    }
    room.close(pass).ok()
}

// Whether a session is opened.
fn joins<R: Wait>(rt: &R, room: &SharedRoom, pass: &mut Pass) -> bool
    requires { IsPassOf room.now pass.old }
    ensures { IsPassOf room.now pass.new }
{
    room.call(rt, pass, Call::Join { units: false }).is_ok()
}

// Whether the room reads a text with these characters.
fn reads<R: Wait>(rt: &R, room: &SharedRoom, pass: &mut Pass, characters: &str) -> bool
    requires { IsPassOf room.now pass.old }
    ensures { IsPassOf room.now pass.new }
{
    match room.call(rt, pass, Call::Read) {
        Ok(Reply::Text { v: _, x }) => x.as_str().contains(characters),
        _ => false,
    }
}

// The `n`-th submission of a session, a letter in front of version 0.
fn front(alloc: Global, s: u32, n: u32, letter: char) -> Result<Call, AllocError> {
    let mut text = String::new(alloc);
    text.push(letter)?;
    Ok(Call::Ins {
        s,
        n,
        v: 0,
        k: 0,
        x: Characters::new(text),
    })
}

// One letter of each of two sessions, both in front of version 0.
fn two_letters(alloc: Global) -> Result<(Call, Call), AllocError> {
    Ok((front(alloc, 1, 1, 'a')?, front(alloc, 2, 1, 'b')?))
}

// The room's text.
fn text_of(room: &Room) -> Result<Characters, Refusal> {
    room.replica().doc().reading(room.replica().version())
}

// Whether the pass finds this after a call.
fn finds_after<R: Wait>(rt: &R, room: &SharedRoom, pass: &mut Pass, call: Call, want: &str) -> bool
    requires { IsPassOf room.now pass.old }
    ensures { IsPassOf room.now pass.new }
{
    let called = room.call(rt, pass, call).is_ok();
    called & reads(rt, room, pass, want)
}

// Each pass opens a session.
fn both_join<R: Wait>(rt: &R, room: &SharedRoom, one: &mut Pass, other: &mut Pass) -> bool
    requires { IsPassOf room.now one.old × IsPassOf room.now other.old }
    ensures { IsPassOf room.now one.new × IsPassOf room.now other.new }
{
    let first = joins(rt, room, one);
    joins(rt, room, other) & first
}

// Each pass inserts a character through its own session and then finds it.
fn both_type<R: Wait>(
    rt: &R,
    room: &SharedRoom,
    one: &mut Pass,
    other: &mut Pass,
    first: Call,
    second: Call,
) -> bool
    requires { IsPassOf room.now one.old × IsPassOf room.now other.old }
    ensures { IsPassOf room.now one.new × IsPassOf room.now other.new }
{
    let found = finds_after(rt, room, one, first, "a");
    finds_after(rt, room, other, second, "b") & found
}

// Each pass opens a session and types through it. Then they meet.
fn take_turns<R: Wait>(
    rt: &R,
    room: &SharedRoom,
    one: &mut Pass,
    other: &mut Pass,
    first: Call,
    second: Call,
) -> bool
    requires { IsPassOf room.now one.old × IsPassOf room.now other.old }
    ensures { IsPassOf room.now one.new × IsPassOf room.now other.new }
{
    let mut all = both_join(rt, room, one, other);
    all &= both_type(rt, room, one, other, first, second);
    room.meet(rt, one, other).is_ok() & all
}

// The pass takes turns with one of its own making, which has no draw left then, takes it in, and reads.
fn two_take_turns<R: Wait>(rt: &R, alloc: Global, room: &SharedRoom, one: &mut Pass) -> bool
    requires { IsPassOf room.now one.old }
    ensures { IsPassOf room.now one.new }
{
    let Ok(mut other) = room.split(one, 4) else {
        return false;
    };
    let Ok((first, second)) = two_letters(alloc) else {
        return false;
    };
    let all = take_turns(rt, room, one, &mut other, first, second) && other.left() == 0;
    room.join(one, other);
    let read = room.call(rt, one, Call::Read).is_ok();
    all && read && one.left() == (1 << 62) - 9
}

// Whether this is the call that was made at this place.
fn is_theirs(place: usize, call: &Call) -> bool {
    match call {
        Call::Join { units: false } => place < 2,
        Call::Ins {
            s,
            n: 1,
            v: 0,
            k: 0,
            x,
        } => (*s == 1 && place == 2 && x.as_str() == "a")
            || (*s == 2 && place == 4 && x.as_str() == "b"),
        Call::Read => place == 3 || place == 5 || place == 6,
        _ => false,
    }
}

// Whether the seven calls are recorded, and no other, each under the ticket after the one before, but for the last: before it were the
// two turns of the meeting. Both put their character in at the front of version 0, so the later one's stands first.
fn has_their_calls(room: &Room) -> bool {
    let Ok(text) = text_of(room) else {
        return false;
    };
    let mut all = room.history().len() == 7 && text.as_str() == "ba";
    for (place, (ticket, call)) in room.history().iter().enumerate() {
        let turn = if place == 6 { 8 } else { place as u64 };
        all &= *ticket == turn && is_theirs(place, call);
    }
    all
}

#[test]
fn passes_take_their_turns_and_meet(rt: HostRuntime) -> Result<(), Fail> {
    let (room, mut one) = shared(rt.alloc())?;
    let all = two_take_turns(&rt, rt.alloc(), &room, &mut one);
    let has = closed(room, one).is_some_and(|closed| has_their_calls(&closed));
    assert!(rt; all && has);
    Ok(())
}

// A pass alone loses no try, hands over no more draws than it has, and may hand over none.
fn is_alone(room: &SharedRoom, pass: &mut Pass) -> bool
    requires { IsPassOf room.now pass.old }
    ensures { IsPassOf room.now pass.new }
{
    let mut all = room.try_call(pass, Call::Join { units: false }).is_ok();
    all &= matches!(
        &room.try_call(pass, Call::Leave { s: 2 }),
        Ok(Reply::No(Refusal::NoSession))
    );
    let left = pass.left();
    all &= room.split(pass, u64::MAX).is_err() && room.split(pass, 0).is_ok();
    all && pass.left() == left
}

// A pass of one draw makes one call, whatever it asks for then, and uses no draw of a pass that it is to meet.
fn makes_one_call<R: Wait>(rt: &R, room: &SharedRoom, pass: &mut Pass) -> bool
    requires { IsPassOf room.now pass.old }
{
    let Ok(mut one) = room.split(pass, 1) else {
        return false;
    };
    let left = pass.left();
    let mut all = room.call(rt, &mut one, Call::Read).is_ok();
    all &= matches!(&room.call(rt, &mut one, Call::Read), Err(Refusal::Worn));
    all &= matches!(&room.try_call(&mut one, Call::Read), Err(Refusal::Worn));
    all &= room.meet(rt, &mut one, pass).is_err();
    all && one.left() == 0 && pass.left() == left
}

#[test]
fn a_lone_pass_is_never_busy_and_one_draw_is_one_call(rt: HostRuntime) -> Result<(), Fail> {
    let (room, mut pass) = shared(rt.alloc())?;
    let alone = is_alone(&room, &mut pass);
    assert!(rt; makes_one_call(&rt, &room, &mut pass) && alone);
    Ok(())
}

// Opens a session and types three letters.
fn types<R: Wait>(rt: &R, alloc: Global, room: &SharedRoom, pass: &mut Pass) -> bool
    requires { IsPassOf room.now pass.old }
    ensures { IsPassOf room.now pass.new }
{
    let mut all = joins(rt, room, pass);
    for n in 1..4 {
        let Ok(call) = front(alloc, 1, n, 'a') else {
            return false;
        };
        all &= room.call(rt, pass, call).is_ok();
    }
    all
}

// Whether these are a site's operations behind the first `after`, in order.
fn are_behind(ops: &[Op], after: u32) -> bool {
    let mut last = after;
    let mut all = true;
    for op in ops {
        last = last.saturating_add(1);
        all &= op.number().1 == last;
    }
    all
}

// Whether a look tells of one session and four calls, which made three operations of one site.
fn is_told(look: &Look, after: u32) -> bool {
    let ops = look.ops.as_slice();
    look.calls == 4
        && look.version == 3
        && look.sessions == 1
        && ops.len() == look.version.saturating_sub(after) as usize
        && are_behind(ops, after)
}

// Whether looks from the first operations on, and from beyond the log, tell this.
fn is_seen<R: Wait>(rt: &R, room: &SharedRoom, pass: &mut Pass) -> bool
    requires { IsPassOf room.now pass.old }
    ensures { IsPassOf room.now pass.new }
{
    let mut all = true;
    for after in 0..5 {
        all &= room
            .look(rt, pass, after)
            .is_ok_and(|look| is_told(&look, after));
    }
    all
}

#[test]
fn a_look_records_nothing(rt: HostRuntime) -> Result<(), Fail> {
    let (room, mut pass) = shared(rt.alloc())?;
    let typed = types(&rt, rt.alloc(), &room, &mut pass);
    let left = pass.left();
    let all = is_seen(&rt, &room, &mut pass) && pass.left() + 5 == left;
    let has = closed(room, pass).is_some_and(|closed| closed.history().len() == 4);
    assert!(rt; typed && all && has);
    Ok(())
}
