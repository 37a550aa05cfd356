//! What is asked of a room and what it answers: calls and replies, with the lists in them. Who reads or writes these needs no
//! room.
#![tactic(auto)]

mod call;
mod desk_fault;
mod edits;
mod event;
mod operations;
mod outcome;
mod outcomes;
mod reply;
mod world_reply;

pub use call::Call;
pub use characters::Characters;
pub use desk_fault::DeskFault;
pub use edits::Edits;
pub use event::Event;
pub use operations::Operations;
pub use outcome::Outcome;
pub use outcomes::Outcomes;
pub use reply::Reply;
pub use world_reply::WorldReply;
