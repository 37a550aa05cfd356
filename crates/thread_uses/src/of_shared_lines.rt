//! Lines that a room answers which threads share.
ghost use Rattle.shared_room.specs.Views.{IsPassOf};

use line_engine::{Counted, ServeFault};
use shared_lines::serve_through_pass;
use shared_room::{Pass, SharedRoom};
use std::alloc::Global;
use std::sync::Wait;

/// The lines by which a shared room answers these, through a pass of it.
pub fn answers_of<R: Wait>(
    rt: &R,
    alloc: Global,
    room: &SharedRoom,
    pass: &mut Pass,
    lines: &[u8],
) -> Result<Vec<u8>, ServeFault>
    requires { IsPassOf room.now pass.old }
    ensures { IsPassOf room.now pass.new }
{
    let mut input = Counted::new(lines);
    let mut output = Counted::new(Vec::new(alloc));
    serve_through_pass(rt, alloc, room, pass, &mut input, &mut output)?;
    Ok(output.into_inner())
}
