//! What a client keeps of a room: its text and its version, as the replies of its session tell, in characters or in UTF-16 units.
#![tactic(auto)]

mod editor;

pub use editor::{Editor, EditorOf, UnitEditor};
