//! A session whose first submission is accepted, and sent again.
ghost use Rattle.std.specs.Prelude.{◌≡◌, IfOk};
ghost use Rattle.opid.specs.declared.submission.Submission.TheVariants.{Repeat};

use opid::{Refusal, Submission};
use session_outbox::Sessions;
use std::alloc::Global;

/// What a session's first submission is where it comes once more, after it led from version 0 to this one.
pub fn sent_again(alloc: Global, to: u32) -> Result<Submission, Refusal>
    ensures { IfOk result (λ what. what ≡ Repeat 0 to) }
{
    let mut sessions = Sessions::new(alloc);
    let s = sessions.join(0, false)?;
    if let Ok(Submission::New) = sessions.check_submit(s, 1, 0) {
        sessions.accept(s, 0, to);
    }
    sessions.check_submit(s, 1, 0)
}
