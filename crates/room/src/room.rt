//! The room: the machine with the history of the calls that it recorded.
ghost use Rattle.std.specs.Prelude.{◌≡◌, ◌+◌, ◌^◌, ◌<◌, ◌≤◌, ◌↔◌, [], true, length, IfOk, OnOk, OnErr, Result};
ghost use Rattle.opid.specs.declared.refusal.Refusal.TheVariants.{HistoryFull};
ghost use Rattle.room_model.specs.declared.reply.Reply.TheVariants.{No};

use crate::machine::Machine;
use opid::{MAX_CALLS, Refusal, Site};
use replica::Replica;
use room_model::{Call, Reply};
use std::alloc::{AllocError, Global};
use std::marker::Model;

/// One document with its sessions, seen as the state that it was opened with, the calls that it recorded, and its
/// state now, which is that of these calls one after another.
#[derive(Drop)]
pub struct Room {
    machine: Machine,
    history: Vec<(u64, Call)>,
    mark: u64,
    opened: usize,
}

// What a recorded call takes, beside what its text or its operations take.
const _: () = prove!(size_of::<(u64, Call)>() == 64);

impl Model for Room {
    ghost use Rattle.room_model.specs.History.{Account};

    ghost Value = { Account };

    ghost use Rattle.room.specs.Internal.Kept.{opening_of, IsRoom};

    ghost view = { λ r. record { opening = opening_of r.opened r.machine; history = r.history.items; state = r.machine } };

    ghost invariant = { λ r. IsRoom r.opened r.machine r.history.items r.mark };
}

impl Room {
    ghost use Rattle.opid.specs.declared.limits.TheConstants.{MAX_CALLS};
    ghost use Rattle.room_model.specs.Machine.{State, empty_room, room_over, may_record, answer};
    ghost use Rattle.room_model.specs.History.{mark, account_over, called, ran, IsConsistent, Runs, StepsRoom};
    ghost use Rattle.room_model.specs.Convergence.{EditorsConverge, EditorsKeepUp};
    ghost use Rattle.room_model.specs.Intention.{KeepsIntentions, OnlyGrows};

    /// The room of a site with an empty document. Constant time; takes no memory.
    pub fn new(alloc: Global, site: Site) -> Room
        ensures { result ≡ account_over (empty_room site) }
    {
        Room::over(alloc, Replica::new(alloc, site))
    }

    /// The room of a replica that holds nothing back, opened over its log. Constant time; takes no memory.
    pub fn over(alloc: Global, replica: Replica) -> Room
        requires { replica.held ≡ [] }
        ensures { result ≡ account_over (room_over replica.site replica.log) }
    {
        prove!(replica.site().number() < 32);
        let opened = replica.version() as usize;
        Room {
            machine: Machine::over(alloc, replica),
            history: Vec::new(alloc),
            mark: 0,
            opened,
        }
    }

    /// The recorded calls, each with its ticket. Constant time.
    #[tactic(auto, using(crate::proofs::Rooms::of_rooms))]
    pub fn history(&self) -> &[(u64, Call)]
        ensures value { result.now ≡ self.now.history }
        ensures consistent { IsConsistent self.now }

        // What editors make of the replies of their sessions is what the room reads, and what they asked for stays.
        ensures editors_converge { EditorsConverge self.now }
        ensures editors_keep_up { EditorsKeepUp self.now }
        ensures keeps_intentions { KeepsIntentions self.now }
        ensures only_grows { OnlyGrows self.now }
    {
        &self.history
    }

    /// The replica: its document with each version's text, and what it holds back. Constant time.
    pub fn replica(&self) -> &Replica
        ensures site { result.now.site ≡ self.now.state.site }
        ensures log { result.now.log ≡ self.now.state.log }
        ensures held { result.now.held ≡ self.now.state.held }
    {
        self.machine.replica()
    }

    /// The least ticket that may follow: the last recorded one plus one, or 0. Constant time.
    pub fn mark(&self) -> u64
        ensures { result ≡ mark self.now.history }
    {
        self.mark
    }

    /// Whether a further call is recorded: 1,048,576 are at most. Where it isn't, each call is answered `HistoryFull`. Constant time.
    pub fn may_record(&self) -> bool
        ensures { result ≡ may_record self.now.state }
    {
        self.machine.may_record()
    }

    /// Answers a call, and records it under its ticket, refused or not; only where 1,048,576 calls are recorded it
    /// answers `HistoryFull` and records nothing. An error is for want of memory, where the call would have been
    /// recorded, and changes nothing. The refusals of each call, in their order, and its cost are told at `Call`;
    /// recording takes one step.
    #[tactic(auto, using(crate::proofs::Rooms::of_rooms))]
    pub fn call(&mut self, ticket: u64, call: Call) -> Result<Reply, AllocError>
        requires least { mark self.old.history ≤ ticket }
        requires most { ticket < 2 ^ 62 }
        ensures answered { IfOk result (λ reply. reply ≡ answer self.old.state call) }
        ensures called { OnOk result (self.new ≡ called self.old ticket call) }
        ensures err { OnErr result (self.new ≡ self.old) }
        ensures memory { OnErr result (may_record self.old.state ≡ true) }
        ensures full { IfOk result (λ reply. (reply ≡ No HistoryFull) ↔ (length self.old.history ≡ MAX_CALLS)) }
        ensures consistent { IsConsistent self.new }

        // What editors make of the replies of their sessions is what the room reads, and what they asked for stays.
        ensures editors_converge { EditorsConverge self.new }
        ensures editors_keep_up { EditorsKeepUp self.new }
        ensures keeps_intentions { KeepsIntentions self.new }
        ensures only_grows { OnlyGrows self.new }
    {
        self.record(ticket, call)
    }

    // Answers a call and records it, as `call` tells.
    #[tactic(auto, using(crate::proofs::Full::full_answer))]
    fn record(&mut self, ticket: u64, call: Call) -> Result<Reply, AllocError>
        requires least { mark self.old.history ≤ ticket }
        requires most { ticket < 2 ^ 62 }
        ensures answered { IfOk result (λ reply. reply ≡ answer self.old.state call) }
        ensures called { OnOk result (self.new ≡ called self.old ticket call) }
        ensures err { OnErr result (self.new ≡ self.old) }
        ensures memory { OnErr result (may_record self.old.state ≡ true) }
        ensures full { IfOk result (λ reply. (reply ≡ No HistoryFull) ↔ (length self.old.history ≡ MAX_CALLS)) }
        ensures before { IsConsistent self.old }
        ensures consistent { IsConsistent self.new }
    {
        if !self.machine.may_record() {
            return Ok(Reply::No(Refusal::HistoryFull));
        }
        self.history.reserve(1)?;
        let reply = self.machine.answer(&call)?;
        self.mark = ticket + 1;
        self.history.push_reserved((ticket, call));
        Ok(reply)
    }

    /// Answers a call under the least ticket that may follow, as `call` tells.
    pub(crate) fn step(&mut self, call: Call) -> Result<Reply, AllocError>
        requires { mark self.old.history ≤ 2 ^ 61 + length self.old.history }
        ensures steps { IfOk result (λ reply. StepsRoom self.old call reply self.new) }
        ensures err { OnErr result (self.new ≡ self.old) }
        ensures memory { OnErr result (may_record self.old.state ≡ true) }
        ensures in_range { mark self.new.history ≤ 2 ^ 61 + length self.new.history }
        ensures consistent { IsConsistent self.new }
    {
        let ticket = self.mark;
        self.call(ticket, call)
    }

    /// Answers calls one after another, under tickets from `mark()` on. After an error, which is for want of memory,
    /// the replies are those of a beginning of the calls, and the room is where these leave it. Takes the steps of
    /// `Call::clone` and of `call` for each.
    #[tactic(auto, using(crate::proofs::Rooms::of_rooms))]
    pub fn run(&mut self, calls: &[Call], replies: &mut Vec<Reply>) -> Result<(), AllocError>
        requires { mark self.old.history ≤ 2 ^ 61 }
        ensures runs { Runs self.old calls.now replies.old.items result replies.new.items self.new }
        ensures consistent { IsConsistent self.new }
        ensures editors_converge { EditorsConverge self.new }
        ensures editors_keep_up { EditorsKeepUp self.new }
        ensures keeps_intentions { KeepsIntentions self.new }
        ensures only_grows { OnlyGrows self.new }
    {
        prove!(self.history.len() <= MAX_CALLS as usize);
        for call in calls {
            replies.reserve(1)?;
            let copy = call.clone()?;
            let reply = self.step(copy)?;
            replies.push_reserved(reply);
        }
        Ok(())
    }

    /// How many sessions are there: those that joined and haven't left. Constant time.
    pub fn sessions(&self) -> u32
        ensures { result ≡ length self.now.state.outbox.sessions }
    {
        self.machine.sessions()
    }
}
