//! A text as the list of its characters: that of a version, of a call or of a reply. A short one takes no memory of its own.
#![tactic(auto)]

mod characters;

pub use characters::Characters;
