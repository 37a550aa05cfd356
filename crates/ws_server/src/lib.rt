//! Rooms behind WebSockets: a hall of rooms by name, and an answer for each message. It passes on `serve_lines`, `Counted`,
//! `ServeFault` and `carry` of the line engine.
#![tactic(auto)]

mod channel;
mod conn;
mod frame;
mod gate;
mod hall;
mod keeping;
mod message;
mod names;
mod origin;
mod socket;

pub use channel::Channel;
pub use conn::{Conn, ShownRoom};
pub use frame::answer_frame;
pub use gate::{Gate, Witness};
pub use hall::{Hall, HallPass};
pub use line_engine::{Counted, ServeFault, carry, serve_lines};
pub use names::names_fit;
pub use origin::{FORBIDDEN, Origins, is_admitted};
pub use socket::{HandshakeFault, serve_channel, serve_one, serve_socket, shake_hands};
