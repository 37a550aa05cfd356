//! Reads of one small room: at the room itself, through a shared room, and behind std's `Mutex`.
ghost use Rattle.std.specs.Prelude.{◌≡◌, ◌≤◌, [], IfOk};
ghost use Rattle.std.specs.Thread.{IsSync};
ghost use Rattle.shared_room.specs.Views.{IsPassOf};

use opid::Site;
use replica::Replica;
use room::{Call, Room};
use shared_room::{Pass, SharedRoom};
use std::alloc::{AllocError, Global};
use std::sync::{Barrier, Mutex, Wait};
use std::thread::{Threads, join};

// A room of twelve characters. The only error is for want of memory.
fn small_room(alloc: Global) -> Result<Room, AllocError>
    ensures { IfOk result (λ room. room.history ≡ []) }
{
    let Ok(site) = Site::new(0) else {
        return Err(AllocError);
    };
    let mut replica = Replica::new(alloc, site);
    match replica.submit_ins(0, 0, "a small room") {
        Ok(_) => Ok(Room::over(alloc, replica)),
        Err(_) => Err(AllocError),
    }
}

fn shared(alloc: Global) -> Result<(SharedRoom, Pass), AllocError>
    ensures { IfOk result (λ r. IsPassOf r.0 r.1) }
{
    SharedRoom::new(alloc, small_room(alloc)?)
}

fn read_room(room: &mut Room, calls: u64) {
    for _ in 0..calls {
        let ticket = room.mark();
        if ticket < 1 << 62 {
            let _ = room.call(ticket, Call::Read);
        }
    }
}

fn read_shared<R: Wait>(rt: &R, room: &SharedRoom, pass: &mut Pass, calls: u64)
    requires { IsPassOf room.now pass.old }
{
    for _ in 0..calls {
        let _ = room.call(rt, pass, Call::Read);
    }
}

fn read_locked<R: Wait>(rt: &R, room: &Mutex<Room>, start: &Barrier, calls: u64) {
    start.wait(rt);
    for _ in 0..calls {
        let mut held = room.lock(rt);
        read_room(&mut held, 1);
    }
}

// Each of so many threads reads so often.
fn by_passes<R: Threads + Wait + Sync>(
    rt: &R,
    room: &SharedRoom,
    start: &Barrier,
    mut pass: Pass,
    threads: u64,
    calls: u64,
)
    requires { IsPassOf room.now pass }
{
    if threads < 2 {
        start.wait(rt);
        return read_shared(rt, room, &mut pass, calls);
    }
    let half = threads / 2;
    let draws = pass.left() / 2;
    let Ok(other) = room.split(&mut pass, draws) else {
        return;
    };
    join(
        rt,
        ||
            requires { IsSync R.row × IsPassOf room.now pass }
        { by_passes(rt, room, start, pass, half, calls) },
        ||
            requires { IsSync R.row × IsPassOf room.now other × (half ≤ threads) }
        { by_passes(rt, room, start, other, threads - half, calls) },
    );
}

fn by_mutex<R: Threads + Wait + Sync>(
    rt: &R,
    room: &Mutex<Room>,
    start: &Barrier,
    threads: u64,
    calls: u64,
) {
    if threads < 2 {
        return read_locked(rt, room, start, calls);
    }
    let half = threads / 2;
    join(
        rt,
        ||
            requires { IsSync R.row }
        { by_mutex(rt, room, start, half, calls) },
        ||
            requires { IsSync R.row × (half ≤ threads) }
        { by_mutex(rt, room, start, threads - half, calls) },
    );
}

/// Reads so often at a room.
pub(crate) fn read_alone(alloc: Global, calls: u64) -> Result<(), AllocError> {
    let mut room = small_room(alloc)?;
    read_room(&mut room, calls);
    Ok(())
}

/// Each of so many threads reads so often through a shared room.
pub(crate) fn read_by_passes<R: Threads + Wait + Sync>(
    rt: &R,
    alloc: Global,
    start: &Barrier,
    threads: u64,
    calls: u64,
) -> Result<(), AllocError> {
    let (room, pass) = shared(alloc)?;
    by_passes(rt, &room, start, pass, threads, calls);
    Ok(())
}

/// Each of so many threads reads so often at a room behind std's `Mutex`.
pub(crate) fn read_by_mutex<R: Threads + Wait + Sync>(
    rt: &R,
    alloc: Global,
    start: &Barrier,
    threads: u64,
    calls: u64,
) -> Result<(), AllocError> {
    let room = Mutex::new(small_room(alloc)?);
    by_mutex(rt, &room, start, threads, calls);
    Ok(())
}
