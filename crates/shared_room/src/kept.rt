//! The room under its lock, whose trail is its opening and then the calls that it recorded.
ghost use Rattle.std.specs.Prelude.{◌≡◌, ◌^◌, ◌<◌, ◌≤◌, ◌↔◌, [], true, length, OnErr, OnOk, IfOk};
ghost use Rattle.std.specs.List.{AllByRecursion};
ghost use Rattle.opid.specs.declared.limits.TheConstants.{MAX_CALLS, MAX_OPERATIONS};
ghost use Rattle.opid.specs.declared.refusal.Refusal.TheVariants.{HistoryFull};
ghost use Rattle.opid.specs.Kinds.{IsOperation};
ghost use Rattle.room_model.specs.declared.reply.Reply.TheVariants.{No};
ghost use Rattle.room_model.specs.Machine.{answer, may_record};
ghost use Rattle.room_model.specs.History.{state_of, mark, called, AreRisingFrom, HandsOperations, IsConsistent};
ghost use Rattle.room.specs.Internal.Legal.{AreRisingFrom-prop};
ghost use Rattle.shared_room.specs.Trails.{trail_of};
ghost use Rattle.shared_room.specs.Internal.Handing.{AllHand-prop};

use crate::look::Look;
use causal_clock::Op;
use history_lock::Trailed;
use room::{Call, Operations, Reply, Room};
use std::alloc::{AllocError, Global};
use std::marker::Model;

/// How a room was opened. No value of it is made.
pub(crate) struct Opening {
    room: Room,
}

impl Model for Opening {
    ghost use Rattle.room_model.specs.Machine.{State};

    ghost Value = { State };

    ghost view = { λ o. o.room.opening };
}

/// What a room's trail is made of. No value of it is made.
pub(crate) enum Item {
    /// How the room was opened.
    Opened(Opening),
    /// A call that it recorded, with its ticket.
    Made(u64, Call),
}

/// The room under its lock, boxed, since each turn moves the value out of the lock's slot and back. What a turn finds, and
/// what a meeting tells of, is the trail of some value of this type, so its ghost fields hold of each history that a pass
/// has seen.
#[derive(Drop)]
pub(crate) struct KeptRoom {
    pub(crate) room: Box<Room>,
    ghost rising: { AreRisingFrom 0 room.value.history } by { AreRisingFrom-prop 0 room.value.history },
    ghost limit: { length room.value.history ≤ MAX_CALLS },
    ghost short: { length (state_of room.value.opening room.value.history).log ≤ MAX_OPERATIONS },
    ghost hands: { AllByRecursion (λ e. HandsOperations e.1) room.value.history } by { AllHand-prop room.value.history },
}

impl Trailed for KeptRoom {
    type Entry = Item;

    ghost trail = { λ kept. trail_of kept.room.value };

    ghost mark = { λ kept. mark kept.room.value.history };
}

impl KeptRoom {
    ghost use Rattle.opid.specs.declared.limits.TheConstants.{MAX_CALLS};
    ghost use Rattle.shared_room.specs.Looks.{ShowsRoom};

    /// The room for its lock, which has recorded no call.
    pub(crate) fn new(alloc: Global, room: Room) -> Result<KeptRoom, AllocError>
        requires { room.history ≡ [] }
        ensures { IfOk result (λ kept. kept.room.value ≡ room) }
    {
        prove!(room.history().len() <= 1_048_576);
        let room = Box::new(alloc, room)?;
        Ok(KeptRoom { room })
    }

    /// The room again.
    pub(crate) fn into_room(self) -> Room
        ensures { result ≡ self.room.value }
    {
        let KeptRoom { room } = self;
        Box::into_inner(room)
    }

    /// Answers a call and records it, as `Room::call` does.
    pub(crate) fn call(&mut self, ticket: u64, call: Call) -> Result<Reply, AllocError>
        requires least { mark self.old.room.value.history ≤ ticket }
        requires most { ticket < 2 ^ 62 }
        ensures answered { IfOk result (λ reply. reply ≡ answer self.old.room.value.state call) }
        ensures called { OnOk result (self.new.room.value ≡ called self.old.room.value ticket call) }
        ensures err { OnErr result (self.new.room.value ≡ self.old.room.value) }
        ensures memory { OnErr result (may_record self.old.room.value.state ≡ true) }
        ensures full { IfOk result (λ reply. (reply ≡ No HistoryFull) ↔ (length self.old.room.value.history ≡ MAX_CALLS)) }
        ensures before { IsConsistent self.old.room.value }
        ensures consistent { IsConsistent self.new.room.value }
    {
        prove!(self.room.history().len() <= 1_048_576);
        prove!(hands_operations(&call));
        self.room.call(ticket, call)
    }

    /// The operations of the log from number `after` on, and how full the room is.
    pub(crate) fn look(&self, after: u32) -> Result<Look, AllocError>
        ensures { IfOk result (λ look. ShowsRoom self.now.room.value.opening self.now.room.value.history after look) }
    {
        let calls = self.room.history().len() as u32;
        let doc = self.room.replica().doc();
        let version = doc.version();
        let ops = doc.copy_ops(after.min(version), version)?;
        Ok(Look {
            ops: Operations::new(ops),
            calls,
            version,
            sessions: self.room.sessions(),
        })
    }
}

// Whether what a call hands over, if anything, are operations: they always are.
fn hands_operations(call: &Call) -> bool
    ensures hands { HandsOperations call.now }
    ensures always { result ≡ true }
{
    match call {
        Call::Put(ops) => are_operations(ops.as_slice()),
        _ => true,
    }
}

fn are_operations(ops: &[Op]) -> bool
    ensures each { AllByRecursion IsOperation ops.now }
    ensures always { result ≡ true }
{
    for op in ops {
        let _ = op.site();
    }
    true
}
