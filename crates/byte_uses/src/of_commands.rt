//! The text of a snapshot.

use commands::{Stop, play_text};
use line_engine::Counted;
use std::alloc::Global;

/// The line that tells what the newest version of a snapshot reads.
pub fn text_of(alloc: Global, snapshot: &[u8]) -> Result<Vec<u8>, Stop> {
    let mut input = Counted::new(snapshot);
    let mut output = Counted::new(Vec::new(alloc));
    play_text(alloc, None, &mut input, &mut output)?;
    Ok(output.into_inner())
}
