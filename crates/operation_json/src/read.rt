//! From JSON to operations.
pub(crate) mod bytes;
pub(crate) mod items;
pub(crate) mod members;
mod offer;
pub(crate) mod operation;
pub(crate) mod run;
