//! Why serving ended before its end.
use thiserror::Error;

/// Why an engine ended before the input's end.
#[derive(Clone, Copy, Debug, PartialEq, Eq, Error)]
pub enum ServeFault {
    /// A read failed.
    #[error("fault read")]
    Read,
    /// A write failed, or took nothing.
    #[error("fault write")]
    Write,
    /// Memory was refused, for the buffer or for the text of a reply.
    #[error("fault memory")]
    Memory,
}
