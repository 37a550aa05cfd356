//! From places to operations: what a site asks for that puts characters in at a place of a version, or deletes
//! them there, as operations behind the whole log (Roh and others 2011; Attiya and others 2016).
#![tactic(auto)]

mod deletions;
mod insertions;
mod known;
mod places;

pub use deletions::{delete_ops, delete_ops_units};
pub use insertions::{insert_ops, insert_ops_units};
