//! A replicated list of characters: elements in a linked order, deleted ones too, beside a table from
//! identifiers to elements (Roh, Jeon, Kim and Lee 2011). An insertion stands where the way right from its parent, past
//! every element with a greater stamp, ends: `integrate_ins` walks it, and `insert_behind` is told its end. So the order
//! is the preorder of the insertion tree (Attiya and others 2016), however the operations arrived.
//! Elements lie in one vector by arrival and are linked by numbers; a deleted one stays, for good.
//!
//! The costs leave out what a vector moves where it grows: all that it holds, to one of at least twice its capacity.
#![tactic(auto)]

mod links;
mod packed_node;
mod rga;
mod table;

pub use links::Elem;
pub use rga::{LIMIT, Place, Rga};
