//! Messages of one connection to a hall.
ghost use Rattle.ws_server.specs.Halls.{IsHallPassOf};

use line_engine::ServeFault;
use std::alloc::Global;
use std::sync::Wait;
use ws_server::{Conn, Gate, Hall, HallPass, answer_frame};

/// The answer to what a connection asks once it has opened a room.
pub fn answer_of<R: Wait, G: Gate>(
    rt: &R,
    alloc: Global,
    hall: &Hall,
    pass: &mut HallPass,
    open: &[u8],
    asked: &[u8],
    gate: &mut G,
) -> Result<String, ServeFault>
    requires { IsHallPassOf hall.now pass.old }
    ensures { IsHallPassOf hall.now pass.new }
{
    let mut conn = Conn::new(alloc);
    answer_frame(rt, alloc, hall, pass, &mut conn, open, gate)?;
    answer_frame(rt, alloc, hall, pass, &mut conn, asked, gate)
}
