//! More threads than the lock has bells, all in line behind one turn.
ghost use Rattle.std.specs.Prelude.{◌≤◌};
ghost use Rattle.std.specs.Thread.{IsSync};
ghost use Rattle.history_lock.specs.Locks.{IsPassOf, IsIdle};

use crate::locks::{Count, take_turn};
use history_lock::{Pass, TicketLock};
use std::sync::Wait;
use std::sync::atomic::AtomicU64;
use std::sync::atomic::Ordering::SeqCst;
use std::test::Fail;
use std::thread::{Threads, join, sleep};
use std::time::{Clock, Duration};

// After so many turns, each 10 microseconds after the one before, a thread gives up.
const TURNS: u32 = 400_000;

// Whether so many tickets come to be drawn before a limit.
fn come_to<R: Wait + Clock>(rt: &R, drawn: &AtomicU64, tickets: u64) -> bool {
    for _ in 0..TURNS {
        if drawn.load(SeqCst) >= tickets {
            return true;
        }
        sleep(rt, Duration::from_micros(10));
    }
    false
}

// Draws a ticket at once, whoever stands in line, and takes its turn. Whether there were as many turns before it as tickets.
fn takes_turn_in_line<R: Wait>(
    rt: &R,
    lock: &TicketLock<Count>,
    pass: &mut Pass<Count>,
    drawn: &AtomicU64,
) -> bool
    requires { IsPassOf lock.now pass.old × IsIdle pass.old }
    ensures { IsPassOf lock.now pass.new × IsIdle pass.new }
{
    let Ok(ticket) = lock.draw(pass) else {
        return false;
    };
    drawn.fetch_add(1, SeqCst);
    let (number, before) = take_turn(rt, lock, ticket, pass);
    number == before
}

// Takes as many turns as there are draws, once another thread has drawn the first ticket.
fn takes_turns_in_line<R: Wait + Clock>(
    rt: &R,
    lock: &TicketLock<Count>,
    pass: &mut Pass<Count>,
    drawn: &AtomicU64,
) -> bool
    requires { IsPassOf lock.now pass.old × IsIdle pass.old }
    ensures { IsPassOf lock.now pass.new × IsIdle pass.new }
{
    let mut all = come_to(rt, drawn, 1);
    for _ in 0..pass.left() {
        all &= takes_turn_in_line(rt, lock, pass, drawn);
    }
    all
}

// The same through a pass that it gives back.
fn take_turns_in_line<R: Wait + Clock>(
    rt: &R,
    lock: &TicketLock<Count>,
    mut pass: Pass<Count>,
    drawn: &AtomicU64,
) -> (Pass<Count>, bool)
    requires { IsPassOf lock.now pass × IsIdle pass }
    ensures { IsPassOf lock.now result.0 × IsIdle result.0 }
{
    let all = takes_turns_in_line(rt, lock, &mut pass, drawn);
    (pass, all)
}

// Joins the second pass to the first, and whether all went well with both.
fn pass_of_both(
    lock: &TicketLock<Count>,
    first: (Pass<Count>, bool),
    second: (Pass<Count>, bool),
) -> (Pass<Count>, bool)
    requires first { IsPassOf lock.now first.0 × IsIdle first.0 }
    requires second { IsPassOf lock.now second.0 × IsIdle second.0 }
    ensures { IsPassOf lock.now result.0 × IsIdle result.0 }
{
    let (mut pass, one) = first;
    let (other, two) = second;
    lock.join(&mut pass, other);
    (pass, one & two)
}

// Takes turns from as many threads, each with its part of the draws, and joins their passes again.
fn take_in_line<R: Threads + Wait + Clock + Sync>(
    rt: &R,
    lock: &TicketLock<Count>,
    mut pass: Pass<Count>,
    drawn: &AtomicU64,
    threads: u64,
) -> (Pass<Count>, bool)
    requires { IsPassOf lock.now pass × IsIdle pass }
    ensures { IsPassOf lock.now result.0 × IsIdle result.0 }
{
    if threads < 2 {
        return take_turns_in_line(rt, lock, pass, drawn);
    }
    let half = threads / 2;
    let draws = pass.left() / 2;
    let Ok(other) = lock.split(&mut pass, draws) else {
        return (pass, false);
    };
    let (first, second) = join(
        rt,
        || -> (Pass<Count>, bool)
            requires { IsSync R.row × IsPassOf lock.now pass × IsIdle pass }
            ensures { IsPassOf lock.entry.now result.0 × IsIdle result.0 }
        { take_in_line(rt, lock, pass, drawn, half) },
        || -> (Pass<Count>, bool)
            requires { IsSync R.row × IsPassOf lock.now other × IsIdle other × (half ≤ threads) }
            ensures { IsPassOf lock.entry.now result.0 × IsIdle result.0 }
        { take_in_line(rt, lock, other, drawn, threads - half) },
    );
    pass_of_both(lock, first, second)
}

// Takes the first turn, and ends it when so many stand in line behind it, or at a limit.
fn hold_up<R: Wait + Clock>(
    rt: &R,
    lock: &TicketLock<Count>,
    mut pass: Pass<Count>,
    drawn: &AtomicU64,
    threads: u64,
) -> (Pass<Count>, bool)
    requires { IsPassOf lock.now pass × IsIdle pass }
    ensures { IsPassOf lock.now result.0 × IsIdle result.0 }
{
    let Ok(ticket) = lock.draw(&mut pass) else {
        return (pass, false);
    };
    drawn.fetch_add(1, SeqCst);
    let mut hold = lock.enter(rt, ticket, &mut pass);
    let all = come_to(rt, drawn, threads.saturating_add(1));
    hold.value.turns = hold.value.turns.wrapping_add(1);
    lock.leave(hold, &mut pass);
    (pass, all)
}

// So many threads, each with a part of the draws, all stand in line behind one turn: whether they then take their turns in order.
fn stand_in_line<R: Threads + Wait + Clock + Sync>(
    rt: &R,
    lock: &TicketLock<Count>,
    first: Pass<Count>,
    pool: Pass<Count>,
    drawn: &AtomicU64,
    threads: u64,
) -> (Pass<Count>, bool)
    requires first { IsPassOf lock.now first × IsIdle first }
    requires pool { IsPassOf lock.now pool × IsIdle pool }
    ensures { IsPassOf lock.now result.0 × IsIdle result.0 }
{
    let (one, others) = join(
        rt,
        || -> (Pass<Count>, bool)
            requires { IsSync R.row × IsPassOf lock.now first × IsIdle first }
            ensures { IsPassOf lock.entry.now result.0 × IsIdle result.0 }
        { hold_up(rt, lock, first, drawn, threads) },
        || -> (Pass<Count>, bool)
            requires { IsSync R.row × IsPassOf lock.now pool × IsIdle pool }
            ensures { IsPassOf lock.entry.now result.0 × IsIdle result.0 }
        { take_in_line(rt, lock, pool, drawn, threads) },
    );
    pass_of_both(lock, one, others)
}

// More threads than there are bells: some sleep beside one bell, and their tickets are 64 apart.
#[test]
fn seventy_threads_stand_in_line(rt: HostRuntime) -> Result<(), Fail> {
    let (lock, mut first) = TicketLock::new(rt.alloc(), Count { turns: 0 })?;
    let Ok(holder) = lock.split(&mut first, 1) else {
        return Err(Fail::from("a draw"));
    };
    let Ok(pool) = lock.split(&mut first, 2560) else {
        return Err(Fail::from("draws"));
    };
    let drawn = AtomicU64::new(0);
    let (pass, all) = stand_in_line(&rt, &lock, holder, pool, &drawn, 70);
    let left = pass.left();
    lock.join(&mut first, pass);
    let Ok(count) = lock.close(first) else {
        return Err(Fail::from("closed"));
    };
    assert!(rt; all && left == 0 && count.turns == 2561);
    Ok(())
}
