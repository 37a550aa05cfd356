//! JSON as bytes: a reader of plain texts that takes them byte by byte, and what a text is put together of.
#![tactic(auto)]

mod byte_writing;
mod escape_bytes;
mod plain;
mod plain_number;
mod plain_text;
mod utf8;

pub use byte_writing::{put, put_all, put_number, put_small};
pub use escape_bytes::{push_quoted, put_quoted};
pub use plain::{MAX_TEXT, PlainReader};
pub use plain_number::leading_number;
pub use utf8::text_of_bytes;
