//! How an operation arrives where others are held back.

/// How an operation arrived.
#[derive(Clone, Copy, Debug, PartialEq, Eq)]
pub enum Arrival {
    /// It is new, and held back from now on.
    Kept,
    /// It is held back already: it came again.
    Again,
}
