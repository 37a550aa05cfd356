//! Why a journal isn't read.
use thiserror::Error;

/// Why bytes are read as no journal.
#[derive(Clone, Copy, Debug, PartialEq, Eq, Error)]
pub enum JournalFault {
    /// Memory was refused.
    #[error("memory was refused")]
    Memory,
    /// The line of this number, from 1 on, tells no part that may follow those before it.
    #[error("line {0} doesn't go on with the log")]
    Line(usize),
}
