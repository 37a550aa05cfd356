//! Requests and replies as JSON texts: which call the bytes of a request ask for, and the one text of each reply.
//!
//! - `request`: the `reader`, and a file for each kind, with its two spellings: by its keys, which `fields` looks up in a JSON value or in
//!   `flat` members, and byte by byte.
//! - `reply`: `write_reply`, by `bytes`, with each `edit` and `outcome`, or by `tokens`.
//! - `part`: an `ops` reply read back, from a JSON value or from `bytes`.
//! - `laws`: what is written is read back.
#![tactic(auto)]

mod laws;
mod part;
mod reply;
mod request;

pub use laws::{different_replies, packed_operations_read_back, parts_read_back};
pub use operation_json::{read_op, write_op};
pub use opid::MAX_REQUEST_BYTES;
pub use part::read_part;
pub use reply::write_reply;
pub use request::open::read_open;
pub use request::reader::{RequestReader, read_request};
