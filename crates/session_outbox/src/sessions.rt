//! The sessions of a server's document, each by the number that it got when it joined.
ghost use Rattle.std.specs.Prelude.{◌≡◌, ◌≤◌, ◌<◌, ◌↔◌, false, not, nat_lt, is_some, length, None, Some, Ok, IsOk, IsSome, IfOk, IfErr};
ghost use Rattle.std.specs.Prelude.{OnOk, OnErr};
ghost use Rattle.std.specs.Option.{option_map};
ghost use Rattle.opid.specs.declared.refusal.Refusal.TheVariants.{NoSession};
ghost use Rattle.opid.specs.declared.submission.Submission.TheVariants.{New};
ghost use Rattle.opid.specs.Sessions.{session_with, change_session, without_session, MayAccept, HaveRisingNumbers, empty_outbox};
ghost use Rattle.opid.specs.Sessions.{with_accepted, sent_to, after_join, after_leave, after_accept, after_pull};
ghost use Rattle.opid.specs.Sessions.{submission_of, pull_of, units_of_session, join_refusal};
ghost use Rattle.session_outbox.specs.Internal.Kept.{sessions_of, session_of};

use crate::facts::Facts;
use indexmap::IndexMap;
use opid::{MAX_SESSIONS, Refusal, Submission};
use std::alloc::Global;
use std::marker::Model;

// The facts of the session with this number.
fn facts_with(facts: &IndexMap<u32, Facts>, s: u32) -> Option<Facts>
    ensures { option_map (λ w. session_of (s, w)) result ≡ session_with s (sessions_of facts.now.entries) }
{
    facts.get(&s).copied()
}

// Notes in the facts of the session with this number, which is there, that its next submission was accepted, and led from a
// version to a version.
fn note_accepted(facts: &mut IndexMap<u32, Facts>, s: u32, from: u32, to: u32)
    requires { MayAccept s (sessions_of facts.old.entries) }
    ensures { sessions_of facts.new.entries ≡ change_session s (with_accepted from to) (sessions_of facts.old.entries) }
{
    if let Some(own) = facts.get_mut(&s) {
        own.last += 1;
        own.start = from;
        own.end = to;
    }
}

// Notes in the facts of the session with this number that it was sent what its pull leads to, and gives the versions that
// the pull leads from and to.
fn note_sent(
    facts: &mut IndexMap<u32, Facts>,
    s: u32,
    have: u32,
    max: u32,
    version: u32,
) -> Result<(u32, u32), Refusal>
    ensures value { result ≡ pull_of (session_with s (sessions_of facts.old.entries)) have max version }
    ensures sent { IfOk result (λ r. sessions_of facts.new.entries ≡ change_session s (sent_to r.1) (sessions_of facts.old.entries)) }
    ensures err { OnErr result (sessions_of facts.new.entries ≡ sessions_of facts.old.entries) }
{
    let Some(own) = facts.get_mut(&s) else {
        return Err(Refusal::NoSession);
    };
    match own.edits(have, max, version) {
        Ok((from, to)) => {
            own.sent = own.sent.max(to);
            Ok((from, to))
        }
        Err(why) => Err(why),
    }
}

// Takes out the session with this number, and says whether it was there.
#[tactic(auto, using(crate::proofs::Entries::removed, crate::proofs::Entries::is_found))]
fn take_out(facts: &mut IndexMap<u32, Facts>, s: u32) -> bool
    ensures there { result ≡ is_some (session_with s (sessions_of facts.old.entries)) }
    ensures others { sessions_of facts.new.entries ≡ without_session s (sessions_of facts.old.entries) }
    ensures unchanged { result ≡ false → sessions_of facts.new.entries ≡ sessions_of facts.old.entries }
{
    facts.shift_remove(&s).is_some()
}

/// The sessions of a document, in order of joining.
///
/// A session is found by a hash of its number. A client may ask for any number, but the table holds only those that were
/// given out here, one by one from 1, and at most 64 at a time. So a fast hasher with a fixed seed serves: no client can
/// bring in keys that fall together. A look-up takes a few steps, and at worst one for each of 64 sessions. After a refusal
/// nothing has changed.
#[derive(Drop)]
pub struct Sessions {
    facts: IndexMap<u32, Facts>,
    next_number: u64,
}

impl Model for Sessions {
    ghost use Rattle.opid.specs.Sessions.{Outbox, HaveRisingNumbers};
    ghost use Rattle.session_outbox.specs.Internal.Kept.{sessions_of};

    ghost Value = { Outbox };

    ghost view = { λ m. record { sessions = sessions_of m.facts.entries; next_number = m.next_number } };

    ghost invariant = { λ m. HaveRisingNumbers 0 m.next_number (sessions_of m.facts.entries) };
}

impl Sessions {
    /// No sessions; the first that joins gets the number 1. Constant time; takes no memory.
    pub fn new(alloc: Global) -> Sessions
        ensures { result ≡ empty_outbox }
    {
        Sessions {
            facts: IndexMap::new(alloc),
            next_number: 1,
        }
    }

    /// Takes in a session at this version of the document, whose places count UTF-16 units, or else characters, and gives
    /// its number: they go up by one, and none is given twice, so fewer than 4,294,967,295 may have been given before. Takes
    /// a look-up, and memory where the table grows.
    ///
    /// Refused with `TooManySessions` where 64 are there, in one step, and with `Memory` where memory was refused.
    pub fn join(&mut self, version: u32, units: bool) -> Result<u32, Refusal>
        requires { self.old.next_number ≤ u32.MAX }
        ensures number { IfOk result (λ s. s ≡ self.old.next_number) }
        ensures fresh { IfOk result (λ s. session_with s self.old.sessions ≡ None) }
        ensures next { OnOk result (self.new ≡ after_join version units self.old) }
        ensures within { OnOk result (length self.old.sessions < MAX_SESSIONS) }
        ensures cause { IfErr result (λ e. e ≡ join_refusal self.old.sessions) }
        ensures err { OnErr result (self.new ≡ self.old) }
    {
        if self.is_full() {
            return Err(Refusal::TooManySessions);
        }
        let number = self.next_number as u32;
        let facts = Facts {
            first: version,
            sent: version,
            last: 0,
            start: 0,
            end: 0,
            units,
        };
        self.facts.insert(number, facts)?;
        self.next_number += 1;
        Ok(number)
    }

    /// Takes a session out. The others keep their order, so those behind it move up. Takes a look-up, and a step for each of
    /// at most 63. Refused with `NoSession` where it isn't there.
    pub fn leave(&mut self, s: u32) -> Result<(), Refusal>
        ensures there { IsOk result ↔ IsSome (session_with s self.old.sessions) }
        ensures next { OnOk result (self.new ≡ after_leave s self.old) }
        ensures cause { IfErr result (λ e. e ≡ NoSession) }
        ensures err { OnErr result (self.new ≡ self.old) }
    {
        if take_out(&mut self.facts, s) {
            Ok(())
        } else {
            Err(Refusal::NoSession)
        }
    }

    /// Whether a session's submission with the number `n` in version `v` is its next one or its last one again.
    /// Refused with `NoSession`; with `BadNumber` where `n` is neither; and, if it is the next one, with `BadVersion`
    /// where `v` is below the session's first version or above its sent one. Takes a look-up.
    pub fn check_submit(&self, s: u32, n: u32, v: u32) -> Result<Submission, Refusal>
        ensures value { result ≡ submission_of (session_with s self.now.sessions) n v }
        ensures acceptable { result ≡ Ok New → MayAccept s self.now.sessions }
    {
        let Some(facts) = facts_with(&self.facts, s) else {
            return Err(Refusal::NoSession);
        };
        facts.submission(n, v)
    }

    /// Notes that the session's next submission, `New` by `check_submit`, was accepted and led from a version to a
    /// version: its last number goes up by one, and these versions are its kept reply. Takes a look-up.
    pub fn accept(&mut self, s: u32, from: u32, to: u32)
        requires { MayAccept s self.old.sessions }
        ensures { self.new ≡ after_accept s from to self.old }
    {
        note_accepted(&mut self.facts, s, from, to);
    }

    /// The versions that the edits lead from and to which a session is sent that has the version `have`, where the
    /// document is at `version`: from `have`, `max` further or to the newest one. That is then its sent version, if it
    /// was older. Refused with `NoSession`; with `BadCount` where `max` is 0 or above 64; and with `BadHave` where
    /// `have` is below the session's first version or above its sent one. Takes a look-up.
    pub fn pull(&mut self, s: u32, have: u32, max: u32, version: u32) -> Result<(u32, u32), Refusal>
        ensures value { result ≡ pull_of (session_with s self.old.sessions) have max version }
        ensures next { IfOk result (λ r. self.new ≡ after_pull s r.1 self.old) }
        ensures err { OnErr result (self.new ≡ self.old) }
    {
        note_sent(&mut self.facts, s, have, max, version)
    }

    /// Whether the session's places count UTF-16 units, as it said when it joined. Refused with `NoSession`. Takes a look-up.
    pub fn in_units(&self, s: u32) -> Result<bool, Refusal>
        ensures { result ≡ units_of_session (session_with s self.now.sessions) }
    {
        match facts_with(&self.facts, s) {
            Some(facts) => Ok(facts.units),
            None => Err(Refusal::NoSession),
        }
    }

    /// How many sessions are there. Takes one step.
    pub fn len(&self) -> usize
        ensures value { result ≡ length self.now.sessions }
        ensures numbered { HaveRisingNumbers 0 self.now.next_number self.now.sessions }
    {
        self.facts.len()
    }

    /// Whether 64 sessions are there, so that `join` refuses a further one. Takes one step.
    pub fn is_full(&self) -> bool
        ensures { result ≡ not (nat_lt (length self.now.sessions) MAX_SESSIONS) }
    {
        self.len() >= MAX_SESSIONS
    }
}
