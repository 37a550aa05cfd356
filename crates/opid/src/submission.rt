//! What a submission turns out to be.

/// A submission that isn't refused.
#[derive(Clone, Copy, Debug, PartialEq, Eq)]
pub enum Submission {
    /// It is the session's next one.
    New,
    /// It is the session's last accepted one, sent again: the versions that it led from and to then.
    Repeat(u32, u32),
}
