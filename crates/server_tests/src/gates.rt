//! Two connections at once, of which one is held at its gate.
ghost use Rattle.std.specs.Thread.{IsSync};
ghost use Rattle.ws_server.specs.Halls.{IsHallPassOf};

use crate::halls::hall_of;
use crate::streams::{CLOSE, HEAD, JOIN, OPEN, Record, TYPE_A, reading_after, reads, serve_script};
use std::alloc::Global;
use std::sync::Wait;
use std::sync::atomic::{AtomicU64, Ordering};
use std::test::Fail;
use std::thread::{Threads, join, sleep};
use std::time::{Clock, Duration};
use ws_server::{Gate, Hall, HallPass};

// Whether one connection is held, and which call of the other was answered.
#[derive(Drop)]
struct Flags {
    held: AtomicU64,
    answered: AtomicU64,
}

// Whether a flag is raised within 1,000,000 turns.
fn is_raised<R: Clock>(rt: &R, flag: &AtomicU64) -> bool {
    for _ in 0..1_000_000 {
        if flag.load(Ordering::SeqCst) > 0 {
            return true;
        }
        sleep(rt, Duration::from_micros(10));
    }
    false
}

// Holds its connection's first call until the other's first was answered.
#[derive(Drop)]
struct Holding<'a, R: Clock> {
    rt: &'a R,
    flags: &'a Flags,
    gave_up: bool,
}

impl<R: Clock> Gate for Holding<'_, R> {
    ghost told_before = { λ _ _ _. Unit {0} };

    ghost told_after = { λ _ _ _. Unit {0} };

    fn before(&mut self, n: u64) {
        if n == 1 {
            self.flags.held.store(1, Ordering::SeqCst);
            self.gave_up = !is_raised(self.rt, &self.flags.answered);
        }
    }

    fn after(&mut self, _n: u64) {}
}

// Makes its connection's first call once the other is held, and tells that it was answered.
#[derive(Drop)]
struct Telling<'a, R: Clock> {
    rt: &'a R,
    flags: &'a Flags,
    gave_up: bool,
}

impl<R: Clock> Gate for Telling<'_, R> {
    ghost told_before = { λ _ _ _. Unit {0} };

    ghost told_after = { λ _ _ _. Unit {0} };

    fn before(&mut self, n: u64) {
        if n == 1 {
            self.gave_up = !is_raised(self.rt, &self.flags.held);
        }
    }

    fn after(&mut self, n: u64) {
        self.flags.answered.store(n, Ordering::SeqCst);
    }
}

// The one that is held types in session 1, which the other opens: whether it ends well.
fn is_held<R: Wait + Clock>(
    rt: &R,
    alloc: Global,
    hall: &Hall,
    pass: &mut HallPass,
    flags: &Flags,
) -> bool
    requires { IsHallPassOf hall.now pass.old }
    ensures { IsHallPassOf hall.now pass.new }
{
    let mut gate = Holding {
        rt,
        flags,
        gave_up: false,
    };
    let parts = [HEAD, OPEN, TYPE_A, CLOSE];
    let record = Record::new(0);
    let end = serve_script(rt, alloc, hall, pass, &parts, &record, &mut gate);
    let mut all = end == Ok(());
    all &= !gate.gave_up;
    all
}

// Whether what it typed is there besides. It would be refused, if it came before the other's first call.
fn types_when_let_in<R: Wait + Clock>(
    rt: &R,
    alloc: Global,
    hall: &Hall,
    mut pass: HallPass,
    flags: &Flags,
) -> bool
    requires { IsHallPassOf hall.now pass }
{
    let mut all = is_held(rt, alloc, hall, &mut pass, flags);
    all &= reads(rt, alloc, hall, &mut pass, reading_after(4));
    all
}

// The other opens a session and goes: whether it ends well.
fn joins<R: Wait + Clock>(
    rt: &R,
    alloc: Global,
    hall: &Hall,
    mut pass: HallPass,
    flags: &Flags,
) -> bool
    requires { IsHallPassOf hall.now pass }
{
    let mut gate = Telling {
        rt,
        flags,
        gave_up: false,
    };
    let parts = [HEAD, OPEN, JOIN, CLOSE];
    let record = Record::new(0);
    let end = serve_script(rt, alloc, hall, &mut pass, &parts, &record, &mut gate);
    let mut all = end == Ok(());
    all &= !gate.gave_up;
    all
}

// Serves both to their ends at once.
fn serves_two<R: Threads + Wait + Clock + Sync>(
    rt: &R,
    alloc: Global,
    hall: &Hall,
    held: HallPass,
    free: HallPass,
) -> bool
    requires { IsHallPassOf hall.now held × IsHallPassOf hall.now free }
{
    let flags = Flags {
        held: AtomicU64::new(0),
        answered: AtomicU64::new(0),
    };
    let both = join(
        rt,
        || -> bool
            requires { IsSync R.row × IsHallPassOf hall.now held }
        { types_when_let_in(rt, alloc, hall, held, &flags) },
        || -> bool
            requires { IsSync R.row × IsHallPassOf hall.now free }
        { joins(rt, alloc, hall, free, &flags) },
    );
    both.0 && both.1
}

// One of two connections is held, that of the first pass or that of the second.
fn holds_either<R: Threads + Wait + Clock + Sync>(
    rt: &R,
    alloc: Global,
    is_first_held: bool,
) -> Result<bool, Fail> {
    let (hall, mut first) = hall_of(alloc, &["notes"])?;
    let Ok(second) = hall.split(alloc, &mut first, 8) else {
        return Err(Fail::from("draws"));
    };
    Ok(if is_first_held {
        serves_two(rt, alloc, &hall, first, second)
    } else {
        serves_two(rt, alloc, &hall, second, first)
    })
}

#[test]
fn a_held_connection_holds_up_no_other(rt: HostRuntime) -> Result<(), Fail> {
    let all = holds_either(&rt, rt.alloc(), true)? && holds_either(&rt, rt.alloc(), false)?;
    assert!(rt; all);
    Ok(())
}
