//! Turns at the ticket lock and at std's `Mutex`, by 1, 2, 8 and 64 threads, and then reads of a small room by 1 and 8: how
//! many a second, and for each the time that passed and the processor time, in nanoseconds. Each row is of
//! five runs: by one thread the fastest, by several the last.
#![tactic(auto)]

ghost use Rattle.std.specs.Prelude.{◌≤◌, [], ◌<◌};
ghost use Rattle.std.specs.Thread.{IsSync};
ghost use Rattle.history_lock.specs.Locks.{IsPassOf, IsIdle};

mod rooms;

use history_lock::{Pass, TicketLock, Trailed};
use std::alloc::{AllocError, Global};
use std::sync::{Barrier, Mutex, Wait};
use std::thread::{Threads, join};
use std::time::{Clock, CpuClock, Duration, Instant};
use std::{env, io};

// A room records 1,048,576 calls at most.
const MOST_CALLS: u64 = 1_000_000;

const RUNS: u64 = 5;

const USAGE: &str =
    "usage: lock_benchmark TURNS (how many turns the threads of a run take together)";

const LOCKS: [What; 3] = [What::Tickets, What::TicketsWhenFree, What::Mutex];

// A value with no trail.
#[derive(Drop)]
struct Count {
    turns: u64,
}

impl Trailed for Count {
    type Entry = u64;

    ghost trail = { λ _. [] };

    ghost mark = { λ _. 0 };
}

// Draws when no ticket is open, where it waits, and else at once.
fn take_turns<R: Wait>(
    rt: &R,
    lock: &TicketLock<Count>,
    start: &Barrier,
    mut pass: Pass<Count>,
    turns: u64,
    waits: bool,
)
    requires { IsPassOf lock.now pass × IsIdle pass }
{
    start.wait(rt);
    for _ in 0..turns {
        let drawn = if waits {
            lock.draw_when_free(rt, &mut pass)
        } else {
            lock.draw(&mut pass)
        };
        let Ok(ticket) = drawn else {
            return;
        };
        let mut hold = lock.enter(rt, ticket, &mut pass);
        hold.value.turns = hold.value.turns.wrapping_add(1);
        lock.leave(hold, &mut pass);
    }
}

// Each of so many threads takes so many turns.
fn by_tickets<R: Threads + Wait + Sync>(
    rt: &R,
    lock: &TicketLock<Count>,
    start: &Barrier,
    mut pass: Pass<Count>,
    threads: u64,
    turns: u64,
    waits: bool,
)
    requires { IsPassOf lock.now pass × IsIdle pass }
{
    if threads < 2 {
        return take_turns(rt, lock, start, pass, turns, waits);
    }
    let half = threads / 2;
    let draws = pass.left() / 2;
    let Ok(other) = lock.split(&mut pass, draws) else {
        return;
    };
    join(
        rt,
        ||
            requires { IsSync R.row × IsPassOf lock.now pass × IsIdle pass }
        { by_tickets(rt, lock, start, pass, half, turns, waits) },
        ||
            requires { IsSync R.row × IsPassOf lock.now other × IsIdle other × (half ≤ threads) }
        { by_tickets(rt, lock, start, other, threads - half, turns, waits) },
    );
}

fn at_tickets<R: Threads + Wait + Sync>(
    rt: &R,
    alloc: Global,
    start: &Barrier,
    threads: u64,
    turns: u64,
    waits: bool,
) -> Result<(), AllocError> {
    let (lock, pass) = TicketLock::new(alloc, Count { turns: 0 })?;
    by_tickets(rt, &lock, start, pass, threads, turns, waits);
    Ok(())
}

fn take_locks<R: Wait>(rt: &R, count: &Mutex<u64>, start: &Barrier, turns: u64) {
    start.wait(rt);
    for _ in 0..turns {
        let mut held = count.lock(rt);
        *held = held.wrapping_add(1);
    }
}

fn by_mutex<R: Threads + Wait + Sync>(
    rt: &R,
    count: &Mutex<u64>,
    start: &Barrier,
    threads: u64,
    turns: u64,
) {
    if threads < 2 {
        return take_locks(rt, count, start, turns);
    }
    let half = threads / 2;
    join(
        rt,
        ||
            requires { IsSync R.row }
        { by_mutex(rt, count, start, half, turns) },
        ||
            requires { IsSync R.row × (half ≤ threads) }
        { by_mutex(rt, count, start, threads - half, turns) },
    );
}

// What the threads of a run do.
#[derive(Clone, Copy)]
enum What {
    Tickets,
    TicketsWhenFree,
    Mutex,
    Room,
    SharedRoom,
    LockedRoom,
}

impl What {
    fn name(self) -> &'static str {
        match self {
            What::Tickets => "turns at the ticket lock",
            What::TicketsWhenFree => "turns at the ticket lock, drawn when it is free",
            What::Mutex => "turns at std's Mutex",
            What::Room => "reads at a room",
            What::SharedRoom => "reads through a shared room",
            What::LockedRoom => "reads of a room behind std's Mutex",
        }
    }

    // Each of so many threads takes so many turns. A room is for one thread.
    fn run<R: Threads + Wait + Sync>(
        self,
        rt: &R,
        alloc: Global,
        start: &Barrier,
        threads: u64,
        turns: u64,
    ) -> Result<(), AllocError> {
        match self {
            What::Tickets => at_tickets(rt, alloc, start, threads, turns, false),
            What::TicketsWhenFree => at_tickets(rt, alloc, start, threads, turns, true),
            What::Mutex => {
                by_mutex(rt, &Mutex::new(0), start, threads, turns);
                Ok(())
            }
            What::Room => rooms::read_alone(alloc, turns),
            What::SharedRoom => rooms::read_by_passes(rt, alloc, start, threads, turns),
            What::LockedRoom => rooms::read_by_mutex(rt, alloc, start, threads, turns),
        }
    }
}

// Runs five times. Prints what the fastest run took, as others may fetch the memory of their history anew; but of several
// threads the last, since in the fastest they may have run one after another.
fn print_run<R: Threads + Wait + Clock + CpuClock + Print + Sync>(
    rt: &R,
    alloc: Global,
    what: What,
    threads: u64,
    turns: u64,
) -> io::Result<()> {
    let each = turns / threads.max(1);
    let (mut passed, mut spent) = (u128::MAX, 0);
    for _ in 0..RUNS {
        let begun = Instant::now(rt)?;
        let used = rt.process_cpu_time()?;
        what.run(rt, alloc, &Barrier::new(threads as usize), threads, each)?;
        let cost = rt.process_cpu_time()?.saturating_sub(used).as_nanos();
        let time = begun.elapsed(rt)?.as_nanos();
        if time < passed || threads > 1 {
            (passed, spent) = (time, cost);
        }
    }
    let all = u128::from(each) * u128::from(threads);
    let rate = all * 1_000_000_000 / passed.max(1);
    let (time, cost) = (passed / all.max(1), spent / all.max(1));
    let name = what.name();
    println!(rt;
        "threads {threads}, {name}: {rate} a second, {time} ns each, {cost} ns of processor time each"
    )
}

fn main(rt: HostRuntime) -> io::Result<()> {
    let alloc: Global = rt.alloc();
    let Some(word) = env::args(&rt)?.nth(1) else {
        println!(rt; "{USAGE}")?;
        return Ok(());
    };
    let Ok(turns) = word.parse::<u64>() else {
        println!(rt; "{USAGE}")?;
        return Ok(());
    };
    for threads in [1, 2, 8, 64] {
        for what in LOCKS {
            print_run(&rt, alloc, what, threads, turns)?;
        }
    }
    let calls = turns.min(MOST_CALLS);
    print_run(&rt, alloc, What::Room, 1, calls)?;
    for threads in [1, 8] {
        print_run(&rt, alloc, What::SharedRoom, threads, calls)?;
        print_run(&rt, alloc, What::LockedRoom, threads, calls)?;
    }
    Ok(())
}
