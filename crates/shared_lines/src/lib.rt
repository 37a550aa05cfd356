//! The line engine over a room that threads share: a line of answer for each line of an input, each call at its turn of the room.
#![tactic(auto)]

mod through_pass;

pub use through_pass::serve_through_pass;
