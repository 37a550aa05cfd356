//! Operations that are kept in a file, here one in memory.

use causal_clock::Op;
use keeper::{Found, FoundFile, MemoryFile, find};
use std::alloc::Global;

/// How many operations a new file keeps once these were handed over, if they could be kept.
pub fn kept(alloc: Global, ops: &[Op]) -> Option<u32> {
    let disk = MemoryFile::new(alloc, Vec::new(alloc));
    let Found { file, doc: _doc } = find(alloc, disk, 0).ok()?;
    match file {
        FoundFile::Whole(mut file) => {
            file.keep(alloc, ops).ok()?;
            Some(file.version())
        }
        FoundFile::Torn(_) => None,
    }
}
