//! What is kept of one session beside its number.
ghost use Rattle.std.specs.Prelude.{◌≡◌, Some};
ghost use Rattle.opid.specs.Sessions.{submission_of, pull_of};
ghost use Rattle.session_outbox.specs.Internal.Kept.{session_of};

use opid::{Refusal, Submission, is_bad_count};

/// The facts of a session.
#[derive(Clone, Copy)]
pub(crate) struct Facts {
    /// The version that it joined at.
    pub(crate) first: u32,
    /// The newest version that it was sent.
    pub(crate) sent: u32,
    /// The number of its last accepted submission, 0 before the first.
    pub(crate) last: u32,
    /// The version that this submission led from: with `end` the reply that is kept for a repeat.
    pub(crate) start: u32,
    /// The version that it led to.
    pub(crate) end: u32,
    /// Whether its places count UTF-16 units.
    pub(crate) units: bool,
}

impl Facts {
    /// What the submission with the number `n` in version `v` turns out to be.
    pub(crate) fn submission(self, n: u32, v: u32) -> Result<Submission, Refusal>
        ensures { result ≡ submission_of (Some (session_of (0, self))) n v }
    {
        if n == self.last && n > 0 {
            return Ok(Submission::Repeat(self.start, self.end));
        }
        if n == 0 || n - 1 != self.last {
            return Err(Refusal::BadNumber);
        }
        if v < self.first || v > self.sent {
            return Err(Refusal::BadVersion);
        }
        Ok(Submission::New)
    }

    /// The versions that the edits of a pull lead from and to.
    pub(crate) fn edits(self, have: u32, max: u32, version: u32) -> Result<(u32, u32), Refusal>
        ensures { result ≡ pull_of (Some (session_of (0, self))) have max version }
    {
        if is_bad_count(max as usize) {
            return Err(Refusal::BadCount);
        }
        if have < self.first || have > self.sent {
            return Err(Refusal::BadHave);
        }
        Ok((have, have.saturating_add(max).min(version)))
    }
}
