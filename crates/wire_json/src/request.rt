//! From the bytes of a request to its call. The file of a kind has `read_KIND`, which looks its keys up, and `rest_of_KIND`, which takes
//! them byte by byte as they come.
mod del;
mod fields;
mod flat;
mod ins;
mod join;
mod leave;
pub(crate) mod open;
mod ops;
mod pull;
pub(crate) mod put;
mod read;
pub(crate) mod reader;
