//! The lock: turns, tries, splits, meetings and the end, by one thread and by several.
ghost use Rattle.std.specs.Prelude.{◌≤◌, ◌<◌, []};
ghost use Rattle.std.specs.Thread.{IsSync};
ghost use Rattle.history_lock.specs.Locks.{sight, IsPassOf, IsIdle, HasDrawn};

use history_lock::{Pass, Ticket, TicketLock, Trailed, TryFault};
use std::sync::Wait;
use std::test::Fail;
use std::thread::{Threads, join};

// How many turns were taken.
#[derive(Drop)]
pub(crate) struct Count {
    pub(crate) turns: u64,
}

impl Trailed for Count {
    type Entry = u64;

    ghost trail = { λ _. [] };

    ghost mark = { λ _. 0 };
}

// Takes the turn of a ticket: its number, and how many turns were taken before it.
pub(crate) fn take_turn<R: Wait>(
    rt: &R,
    lock: &TicketLock<Count>,
    ticket: Ticket,
    pass: &mut Pass<Count>,
) -> (u64, u64)
    requires { IsPassOf lock.now pass.old × HasDrawn pass.old ticket }
    ensures { IsPassOf lock.now pass.new × IsIdle pass.new }
{
    let mut hold = lock.enter(rt, ticket, pass);
    let number = hold.ticket();
    let before = hold.value.turns;
    hold.value.turns = before.wrapping_add(1);
    lock.leave(hold, pass);
    (number, before)
}

// Takes a turn, unless no draw is left. Its ticket is drawn when none is open, where it waits, and else at once.
fn takes_turn<R: Wait>(
    rt: &R,
    lock: &TicketLock<Count>,
    pass: &mut Pass<Count>,
    waits: bool,
) -> bool
    requires { IsPassOf lock.now pass.old × IsIdle pass.old }
    ensures { IsPassOf lock.now pass.new × IsIdle pass.new }
{
    let drawn = if waits {
        lock.draw_when_free(rt, pass)
    } else {
        lock.draw(pass)
    };
    let Ok(ticket) = drawn else {
        return false;
    };
    take_turn(rt, lock, ticket, pass);
    true
}

// Takes as many turns as there are draws. For each second one it waits until no ticket is open.
fn take_turns<R: Wait>(rt: &R, lock: &TicketLock<Count>, mut pass: Pass<Count>) -> Pass<Count>
    requires { IsPassOf lock.now pass × IsIdle pass }
    ensures { IsPassOf lock.now result × IsIdle result }
{
    for turn in 0..pass.left() {
        takes_turn(rt, lock, &mut pass, turn % 2 == 1);
    }
    pass
}

// Takes turns from as many threads, each with its part of the draws, and joins their passes again.
fn take_together<R: Threads + Wait + Sync>(
    rt: &R,
    lock: &TicketLock<Count>,
    mut pass: Pass<Count>,
    threads: u64,
) -> Pass<Count>
    requires { IsPassOf lock.now pass × IsIdle pass }
    ensures { IsPassOf lock.now result × IsIdle result }
{
    if threads < 2 {
        return take_turns(rt, lock, pass);
    }
    let half = threads / 2;
    let draws = pass.left() / 2;
    let Ok(other) = lock.split(&mut pass, draws) else {
        return pass;
    };
    let (mut pass, other) = join(
        rt,
        || -> Pass<Count>
            requires { IsSync R.row × IsPassOf lock.now pass × IsIdle pass }
            ensures { IsPassOf lock.entry.now result × IsIdle result }
        { take_together(rt, lock, pass, half) },
        || -> Pass<Count>
            requires { IsSync R.row × IsPassOf lock.now other × IsIdle other × (half ≤ threads) }
            ensures { IsPassOf lock.entry.now result × IsIdle result }
        { take_together(rt, lock, other, threads - half) },
    );
    lock.join(&mut pass, other);
    pass
}

// So many turns by as many threads, which use up their draws: whether no draw is left of theirs, and all the others are.
fn use_up<R: Threads + Wait + Sync>(
    rt: &R,
    lock: &TicketLock<Count>,
    first: &mut Pass<Count>,
    threads: u64,
    turns: u64,
) -> bool
    requires { IsPassOf lock.now first.old × IsIdle first.old }
    ensures { IsPassOf lock.now first.new × IsIdle first.new }
{
    let Ok(pool) = lock.split(first, turns) else {
        return false;
    };
    let left = first.left();
    let pool = take_together(rt, lock, pool, threads);
    let is_used_up = pool.left() == 0;
    lock.join(first, pool);
    is_used_up && first.left() == left
}

#[test]
fn threads_use_up_their_draws(rt: HostRuntime) -> Result<(), Fail> {
    let (lock, mut first) = TicketLock::new(rt.alloc(), Count { turns: 0 })?;
    let two = use_up(&rt, &lock, &mut first, 2, 2000);
    let eight = use_up(&rt, &lock, &mut first, 8, 8000);
    assert!(rt; two && eight && first.left() == (1 << 62) - 10_000);
    let Ok(count) = lock.close(first) else {
        return Err(Fail::from("closed"));
    };
    assert!(rt; count.turns == 10_000);
    Ok(())
}

// Tries for the value, and gives it back: how the try went, and how many draws were left then.
fn tries(lock: &TicketLock<Count>, pass: &mut Pass<Count>) -> (Result<(), TryFault>, u64)
    requires { IsPassOf lock.now pass.old × IsIdle pass.old }
    ensures { IsPassOf lock.now pass.new × IsIdle pass.new }
{
    match lock.try_enter(pass) {
        Ok(hold) => {
            let left = pass.left();
            lock.leave(hold, pass);
            (Ok(()), left)
        }
        Err(why) => (Err(why), pass.left()),
    }
}

// Whether a try is lost, which uses no draw, and a pass with no draw is told so at once, while another has the value.
fn waits_for_nobody<R: Wait>(
    rt: &R,
    lock: &TicketLock<Count>,
    holder: &mut Pass<Count>,
    other: &mut Pass<Count>,
    worn: &mut Pass<Count>,
) -> bool
    requires holder { IsPassOf lock.now holder.old × IsIdle holder.old }
    requires other { IsPassOf lock.now other.old × IsIdle other.old }
    requires worn { IsPassOf lock.now worn.old × IsIdle worn.old }
    ensures holder { IsPassOf lock.now holder.new × IsIdle holder.new }
    ensures other { IsPassOf lock.now other.new × IsIdle other.new }
    ensures worn { IsPassOf lock.now worn.new × IsIdle worn.new }
{
    let Ok(ticket) = lock.draw(holder) else {
        return false;
    };
    let hold = lock.enter(rt, ticket, holder);
    let tried = tries(lock, other);
    let is_worn = !takes_turn(rt, lock, worn, true);
    lock.leave(hold, holder);
    matches!(tried, (Err(TryFault::Busy), 2)) && is_worn
}

// A meeting with a pass that has no draw left uses none of the other's.
fn meets_in_vain<R: Wait>(
    rt: &R,
    lock: &TicketLock<Count>,
    pass: &mut Pass<Count>,
    worn: &mut Pass<Count>,
) -> bool
    requires { IsPassOf lock.now pass.old × IsIdle pass.old × IsPassOf lock.now worn.old × IsIdle worn.old }
{
    let left = pass.left();
    let mut all = lock.meet(rt, pass, worn).is_err();
    all &= lock.meet(rt, worn, pass).is_err();
    all && pass.left() == left && worn.left() == 0
}

#[test]
fn who_may_not_enter_is_told_at_once(rt: HostRuntime) -> Result<(), Fail> {
    let (lock, mut holder) = TicketLock::new(rt.alloc(), Count { turns: 0 })?;
    let Ok(mut other) = lock.split(&mut holder, 2) else {
        return Err(Fail::from("draws"));
    };
    let Ok(mut worn) = lock.split(&mut holder, 0) else {
        return Err(Fail::from("no draws"));
    };
    let mut all = waits_for_nobody(&rt, &lock, &mut holder, &mut other, &mut worn);
    all &= matches!(tries(&lock, &mut other), (Ok(()), 1));
    all &= matches!(lock.meet(&rt, &mut holder, &mut other), Ok(()));
    all &= meets_in_vain(&rt, &lock, &mut holder, &mut worn);
    assert!(rt; all);
    Ok(())
}

// Draws a ticket for each pass, and takes their turns.
fn take_their_turns<R: Wait>(
    rt: &R,
    lock: &TicketLock<Count>,
    one: &mut Pass<Count>,
    other: &mut Pass<Count>,
) -> bool
    requires { IsPassOf lock.now one.old × IsIdle one.old × IsPassOf lock.now other.old × IsIdle other.old }
{
    let Ok(first) = lock.draw(one) else {
        return false;
    };
    let Ok(second) = lock.draw(other) else {
        take_turn(rt, lock, first, one);
        return false;
    };
    let before = take_turn(rt, lock, first, one);
    let after = take_turn(rt, lock, second, other);
    before == (0, 0) && after == (1, 1) && one.is_idle() && other.is_idle()
}

#[test]
fn tickets_take_their_turns(rt: HostRuntime) -> Result<(), Fail> {
    let (lock, mut one) = TicketLock::new(rt.alloc(), Count { turns: 0 })?;
    let Ok(mut other) = lock.split(&mut one, 1) else {
        return Err(Fail::from("draws"));
    };
    assert!(rt; take_their_turns(&rt, &lock, &mut one, &mut other));
    Ok(())
}

// Whether a split above what is left is refused and changes nothing.
fn keeps_its_draws(lock: &TicketLock<Count>, pass: &mut Pass<Count>) -> bool
    requires { IsPassOf lock.now pass.old × IsIdle pass.old }
    ensures { IsPassOf lock.now pass.new × IsIdle pass.new }
{
    let left = pass.left();
    lock.split(pass, left.saturating_add(1)).is_err() && pass.left() == left
}

// Splits a pass while it has a ticket: how many draws it hands over, and how many it has left then.
fn split_in_line<R: Wait>(
    rt: &R,
    lock: &TicketLock<Count>,
    pass: &mut Pass<Count>,
    draws: u64,
) -> Option<(u64, u64)>
    requires { IsPassOf lock.now pass.old × IsIdle pass.old }
{
    let ticket = lock.draw(pass).ok()?;
    let Ok(given) = lock.split(pass, draws) else {
        take_turn(rt, lock, ticket, pass);
        return None;
    };
    let left = pass.left();
    take_turn(rt, lock, ticket, pass);
    Some((given.left(), left))
}

#[test]
fn a_split_hands_over_no_more_than_is_left(rt: HostRuntime) -> Result<(), Fail> {
    let (lock, mut pass) = TicketLock::new(rt.alloc(), Count { turns: 0 })?;
    let Ok(mut few) = lock.split(&mut pass, 3) else {
        return Err(Fail::from("draws"));
    };
    let all = keeps_its_draws(&lock, &mut few);
    assert!(rt; all && split_in_line(&rt, &lock, &mut few, 2) == Some((2, 0)));
    assert!(rt; split_in_line(&rt, &lock, &mut pass, 0) == Some((0, (1 << 62) - 4)));
    Ok(())
}

// Takes the turn of a ticket, and closes the lock then: how many turns were taken.
fn close_after<R: Wait>(
    rt: &R,
    lock: TicketLock<Count>,
    mut holder: Pass<Count>,
    ticket: Ticket,
    other: Pass<Count>,
) -> Option<u64>
    requires holder { IsPassOf lock holder × HasDrawn holder ticket }
    requires other { IsPassOf lock other × IsIdle other × (0 < (sight other).left) }
{
    take_turn(rt, &lock, ticket, &mut holder);
    Some(lock.close(other).ok()?.turns)
}

// Over a ticket the lock and the pass come back.
#[test]
fn a_lock_with_an_open_ticket_is_not_closed(rt: HostRuntime) -> Result<(), Fail> {
    let (lock, mut holder) = TicketLock::new(rt.alloc(), Count { turns: 0 })?;
    let Ok(other) = lock.split(&mut holder, 2) else {
        return Err(Fail::from("draws"));
    };
    let Ok(ticket) = lock.draw(&mut holder) else {
        return Err(Fail::from("a draw"));
    };
    match lock.close(other) {
        Ok(_) => panic!(rt; "closed over a ticket"),
        Err((lock, other)) => {
            assert!(rt; close_after(&rt, lock, holder, ticket, other) == Some(1));
            Ok(())
        }
    }
}
