//! A replica of a document: its log, and the operations from elsewhere that are held back until their causal past is
//! there (Roh and others 2011; causal delivery).
//!
//! The costs leave out what a vector moves where it grows: all that it holds, to one of at least twice its capacity.
#![tactic(auto)]

mod deliver;
pub mod laws;
mod log;
mod part;
mod places;
mod replica;
mod settle;
mod submissions;

pub use opid::Delivery;
pub use replica::Replica;
