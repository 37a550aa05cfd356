//! Messages over a WebSocket, whose answers go out once they are kept.
ghost use Rattle.std.specs.Prelude.{◌≡◌, length};
ghost use Rattle.ws_server.specs.Halls.{rooms_of, IsHallPassOf, IsConnOf};

use crate::connection::KeptConnection;
use crate::room_turns::RoomTurns;
use keeper::Disk;
use line_engine::ServeFault;
use std::alloc::Global;
use std::io::{Read, Write};
use std::sync::Wait;
use std::sync::atomic::{AtomicBool, Ordering};
use std::time::Clock;
use ws_server::{ShownRoom, Witness};

// Answers go out once so many bytes of them wait.
const MOST_WAITING: usize = 65_536;

/// Serves one message after another, as `serve_socket` does, until the other side closes, or the server ends and what was read is answered.
///
/// What is answered waits while further messages are there that were read already, up to 65,536 bytes and one answer; then it goes out in
/// its order, once the room's log is kept as far as it was seen. What is answered before a room is opened waits for nothing. Which room
/// is opened is shown.
///
/// Its faults are those of `serve_socket`; `Write` too where keeping takes more than half a minute. Takes as long as the other side stays.
pub fn serve_kept<R: Wait + Clock, D: Disk, S: Read + Write + Drop, G: Witness>(
    rt: &R,
    alloc: Global,
    turns: &[RoomTurns<D>],
    it: &mut KeptConnection<'_, S>,
    gate: &mut G,
    is_ending: &AtomicBool,
    shown: &ShownRoom,
) -> Result<(), ServeFault>
    requires pass { IsHallPassOf it.old.hall.now it.old.pass }
    requires conn { IsConnOf it.old.hall.now it.old.conn }
    requires counted { length turns.now ≡ length (rooms_of it.old.hall.now) }
    ensures hall { it.new.hall ≡ it.old.hall }
    ensures pass { IsHallPassOf it.new.hall.now it.new.pass }
    ensures conn { IsConnOf it.new.hall.now it.new.conn }
{
    for _ in rt.forever() {
        let served = it.serve(rt, alloc, gate);
        if !goes_on(it, &served) {
            return ended(served, send_out(rt, alloc, turns, it));
        }
        shown.show(it.opened());
        let is_all_answered = it.is_put_off();
        if is_all_answered || it.waiting() > MOST_WAITING {
            send_out(rt, alloc, turns, it)?;
        }
        if is_all_answered && is_ending.load(Ordering::SeqCst) {
            return Ok(());
        }
    }
    unreachable!()
}

// Whether further messages are to be served: one was, or its read was put off.
fn goes_on<S: Read + Write + Drop>(
    it: &KeptConnection<'_, S>,
    served: &Result<bool, ServeFault>,
) -> bool {
    match served {
        Ok(more) => *more,
        Err(ServeFault::Read) => it.is_put_off(),
        Err(_) => false,
    }
}

// How a connection ends whose last turn and last output ended so.
fn ended(served: Result<bool, ServeFault>, sent: Result<(), ServeFault>) -> Result<(), ServeFault> {
    match served {
        Ok(_) => sent,
        Err(why) => Err(why),
    }
}

// Sends what waits, if something does, once it is kept.
fn send_out<R: Wait + Clock, D: Disk, S: Read + Write + Drop>(
    rt: &R,
    alloc: Global,
    turns: &[RoomTurns<D>],
    it: &mut KeptConnection<'_, S>,
) -> Result<(), ServeFault>
    requires pass { IsHallPassOf it.old.hall.now it.old.pass }
    requires conn { IsConnOf it.old.hall.now it.old.conn }
    requires counted { length turns.now ≡ length (rooms_of it.old.hall.now) }
    ensures hall { it.new.hall ≡ it.old.hall }
    ensures pass { IsHallPassOf it.new.hall.now it.new.pass }
    ensures conn { IsConnOf it.new.hall.now it.new.conn }
{
    if it.waiting() == 0 {
        return Ok(());
    }
    let kept = it.wait(rt, alloc, turns)?;
    it.release(kept)
}
