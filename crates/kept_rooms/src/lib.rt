//! Rooms whose logs are kept in files: turns of keeping, and answers that wait until they are kept.
//!
//! What a pass has seen of a log stands in `specs/SeenLogs.antt`; what a turn does in `specs/Keeping.antt`; which bytes may go out in
//! `specs/Covered.antt`. That turns can be taken of rooms that were opened over files is a law (`laws`).
#![tactic(auto)]

mod assigning;
mod connection;
mod following;
mod held;
pub mod laws;
mod opening;
mod room_turns;
mod serving;
mod turn;

pub use assigning::{Assigned, assign_rooms};
pub use connection::KeptConnection;
pub use following::follow;
pub use held::HeldStream;
pub use opening::{Opening, Unopened, open_hall};
pub use room_turns::{RoomTurns, wait_until_kept};
pub use serving::serve_kept;
pub use turn::{TurnFault, keep_turn};
