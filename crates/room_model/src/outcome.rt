//! What became of an operation of a `put`.

use opid::Refusal;

/// The outcome of one operation from elsewhere.
#[derive(Clone, Copy, Debug, PartialEq, Eq)]
pub enum Outcome {
    /// It was integrated. The first number counts it and those held back that were integrated after it, the second
    /// those held back that became ready and were dropped.
    Took(u32, u32),
    /// Its causal past isn't there yet, so it is held back.
    Kept,
    /// It is integrated or held back already.
    Again,
    /// It was refused and changed nothing.
    No(Refusal),
}
