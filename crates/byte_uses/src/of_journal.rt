//! Operations as the lines of a file.
ghost use Rattle.std.specs.Prelude.{◌≤◌, length};

use causal_clock::Op;
use journal::{Journal, JournalFault, read_journal, write_lines};
use opid::MAX_OPERATIONS;
use sha2::{Digest, Sha256};
use std::alloc::Global;

/// The journal that is read of the lines of a log's operations.
pub fn written_and_read(alloc: Global, ops: &[Op]) -> Result<Journal, JournalFault>
    requires { length ops.now ≤ MAX_OPERATIONS }
{
    let Ok(lines) = write_lines(alloc, &Sha256::new(), 0, ops) else {
        return Err(JournalFault::Memory);
    };
    read_journal(alloc, lines.text.as_bytes())
}
