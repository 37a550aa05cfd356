//! One room: a document with its sessions, as a machine that answers calls and records them.
//!
//! The costs leave out what a vector or table moves where it grows: all that it holds, a vector to one of at least twice its
//! capacity.
#![tactic(auto)]

mod calls;
mod desk;
pub mod laws;
mod machine;
mod owned;
mod room;

pub use desk::Desk;
pub use owned::RoomDesk;
pub use room::Room;
pub use room_model::{Call, Characters, DeskFault, Edits, Operations, Outcome, Outcomes, Reply};
