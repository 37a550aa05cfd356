//! What the program may be asked to do, and why it can do nothing.
#![tactic(auto)]

mod fault;
mod plan;
mod sites;

pub use fault::PlanFault;
pub use plan::Plan;
pub use sites::Sites;
