//! From operations to JSON.
mod bytes;
pub(crate) mod items;
pub(crate) mod operation;
