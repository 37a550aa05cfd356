//! A lock whose tickets are served in their order, round a value that only grows, and passes that know what they have
//! seen of it.
//!
//! The lock is the server's own. What a pass knows stands in `specs/Sights.antt`; which trail was left for each turn in
//! `specs/Turns.antt`; what a pass is told as its turn comes in `specs/Told.antt`; and the words of the public contracts in
//! `specs/Locks.antt`. The lock's one rule and the kinds of its atomic steps are the code's alone: `specs/Internal/Lock.antt`,
//! `specs/Internal/Steps.antt`.
#![tactic(auto)]

mod bells;
pub mod laws;
mod lobby;
mod lock;
mod meets;
mod parts;
mod pass;
mod plays;
mod steps;
mod trailed;
mod tries;

pub use lock::{Hold, Ticket, TicketLock, TryFault, Worn};
pub use pass::{Pass, Sight, Stage};
pub use plays::Served;
pub use trailed::Trailed;
