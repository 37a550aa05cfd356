//! Keeping a log in a file: what is promised holds whenever the machine stops.
//!
//! What a crash may leave of a file is told by `specs/Disk.antt`, and what a kept file has to do with its log by `specs/Kept.antt`.
#![tactic(auto)]

mod disk;
mod failures;
mod fault;
mod host;
mod kept;
pub mod laws;
mod memory;
mod opening;
mod torn;

pub use disk::Disk;
pub use fault::{KeepFault, OpenFault};
pub use host::HostFile;
pub use kept::{Kept, KeptFile};
pub use memory::MemoryFile;
pub use opening::{Found, FoundFile, Unopened, find};
pub use torn::TornFile;
