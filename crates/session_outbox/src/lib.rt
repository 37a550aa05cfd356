//! What a server keeps of each session: the versions that it was sent, and the reply to its last submission.
//!
//! The costs leave out what the table of at most 64 sessions moves where it grows or is cleared of places left empty.
#![tactic(auto)]

mod facts;
mod sessions;

pub use opid::Submission;
pub use sessions::Sessions;
