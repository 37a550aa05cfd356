//! What is held back: operations that came before their causal past, in order of arrival, until they are ready
//! (Roh and others 2011; causal delivery).
//!
//! The costs leave out what a vector moves where it grows: all that it holds, to one of at least twice its capacity.
#![tactic(auto)]

mod held;
mod in_order;
pub mod laws;

pub use held::Held;
pub use opid::{Arrival, MAX_HELD};
