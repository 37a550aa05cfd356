//! Snapshots: a document's log as one JSON text, written from a replica, and read back as a document or a replica.
//!
//! Which log a text stands for is told by `specs/Snapshot.antt`.
#![tactic(auto)]

mod gathered;
pub mod laws;
mod loading;
mod saving;
mod spelled;

pub use loading::{append_operations, lacks_site, load, load_doc, open_over};
pub use saving::save;
