//! Why no reply is given.
use thiserror::Error;

/// Why a desk gives no reply.
#[derive(Clone, Copy, Debug, PartialEq, Eq, Error)]
pub enum DeskFault {
    /// The desk has no call left.
    #[error("no call is left")]
    Worn,
    /// Memory was refused. The call wasn't recorded, and the room is as it was.
    #[error("memory was refused")]
    Memory,
}
