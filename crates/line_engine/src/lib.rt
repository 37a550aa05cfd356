//! The line engine: a line of answer for each line of an input, over any reader and writer. And operations carried from a desk to a
//! desk.
#![tactic(auto)]

mod carrying;
mod counted;
mod engine;
mod fault;
mod fixed;
mod protocol;
mod reply_line;
mod requests;
mod sink;
mod source;
mod taking;
mod window;

pub use carrying::carry;
pub use counted::Counted;
pub use engine::{serve, serve_lines};
pub use fault::ServeFault;
pub use protocol::Protocol;
pub use reply_line::ReplyLine;
pub use requests::{Requests, reply_of};
pub use sink::Sink;
pub use source::Source;
pub use taking::{FirstLine, first_line, whole_input};
pub use window::Window;
