//! Journals: a document's log as lines, each of which tells a part of it, or the digest of all before it, in a file that only grows.
//!
//! Which log a journal's bytes stand for is told by `specs/Journal.antt`.
#![tactic(auto)]

mod digest;
mod fault;
mod free;
pub mod laws;
mod mark;
mod reading;
mod writing;

pub use fault::JournalFault;
pub use free::free_site;
pub use mark::Mark;
pub use reading::{Journal, read_journal};
pub use writing::{Lines, write_lines};
