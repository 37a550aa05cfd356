//! Lines that a room answers.

use line_engine::{Counted, ServeFault, serve_lines};
use opid::Site;
use room::{Room, RoomDesk};
use std::alloc::Global;

/// The lines by which the empty room of a site answers these.
pub fn answers_of(alloc: Global, site: Site, lines: &[u8]) -> Result<Vec<u8>, ServeFault> {
    let mut desk = RoomDesk::new(Room::new(alloc, site));
    let mut input = Counted::new(lines);
    let mut output = Counted::new(Vec::new(alloc));
    serve_lines(alloc, &mut desk, &mut input, &mut output)?;
    Ok(output.into_inner())
}
