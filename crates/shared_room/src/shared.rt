//! A room that threads share, and the calls that a pass makes there.
ghost use Rattle.std.specs.Prelude.{◌≡◌, ℕ, ◌+◌, ◌^◌, ◌<◌, ◌≤◌, ◌↔◌, ◌⊎◌, [], IfOk, IsErr, IfErr, OnOk, OnErr};
ghost use mathlib.Core.List.{IsPrefix};
ghost use Rattle.opid.specs.declared.refusal.Refusal.TheVariants as Why;
ghost use Rattle.room_model.specs.History.{mark};
ghost use Rattle.history_lock.specs.Locks as locks;
ghost use Rattle.history_lock.specs.Locks.{sight, ticket_of};
ghost use Rattle.shared_room.specs.Trails.{trail_of};
ghost use Rattle.shared_room.specs.Views.{view, opening, IsPassOf, View};
ghost use Rattle.shared_room.specs.Turns.{Answers, LacksMemory, Loses, Joins, Meets, given_away, newcomer};
ghost use Rattle.shared_room.specs.Internal.TurnEnds.{EndsTurn, Keeps};

use crate::kept::KeptRoom;
use crate::pass::Pass;
use history_lock::{Hold, TicketLock, TryFault, Worn};
use opid::Refusal;
use room::{Call, Reply, Room};
use std::alloc::{AllocError, Global};
use std::sync::Wait;

/// A room that threads share by reference, each with a pass. Calls are answered in the order of their tickets.
#[derive(Drop)]
pub struct SharedRoom {
    pub(crate) lock: TicketLock<KeptRoom>,
}

impl SharedRoom {
    /// Shares a room that has recorded no call. The first pass may make 2^62 calls.
    ///
    /// Takes memory for the lock and a box, whatever the room's size. The only error is for want of it; the room is dropped then.
    /// Constant time, beside that drop.
    pub fn new(alloc: Global, room: Room) -> Result<(SharedRoom, Pass), AllocError>
        requires { room.history ≡ [] }
        ensures pass { IfOk result (λ r. IsPassOf r.0 r.1) }
        ensures opening { IfOk result (λ r. opening r.0 ≡ room.opening) }
        ensures opened { IfOk result (λ r. view r.1
            ≡ record { seen = []; found = []; mine = []; drawn = 0; turns = 0; left = 2 ^ 62; lost = 0 }) }
    {
        let (lock, pass) = TicketLock::new(alloc, KeptRoom::new(alloc, room)?)?;
        Ok((SharedRoom { lock }, Pass { pass }))
    }

    /// Waits for the call's turn and answers it, which uses one draw. A call that is refused by the room, as told at
    /// `Call`, is a reply too.
    ///
    /// Refused with `Worn` where the pass has no draw left, and nothing has changed then; and with `Memory`, where a turn
    /// was taken that would have recorded the call, and didn't.
    ///
    /// Waits without a ticket until none is open, draws one, and then waits for those who drew before. Who of several
    /// that wait so draws first isn't told. Takes the steps of `Room::call`.
    pub fn call<R: Wait>(&self, rt: &R, pass: &mut Pass, call: Call) -> Result<Reply, Refusal>
        requires { IsPassOf self.now pass.old }
        ensures pass { IsPassOf self.now pass.new }
        ensures answered { IfOk result (λ reply. Answers (opening self.now) (view pass.old) (view pass.new) call reply) }
        ensures cause { IfErr result (λ e. (e ≡ Why.Worn) ⊎ (e ≡ Why.Memory)) }
        ensures worn { (result ≡ Err Why.Worn) ↔ ((view pass.old).left ≡ 0) }
        ensures worn_same { (result ≡ Err Why.Worn) → view pass.new ≡ view pass.old }
        ensures memory { (result ≡ Err Why.Memory) → LacksMemory (view pass.old) (view pass.new) }
    {
        let Ok(ticket) = self.lock.draw_when_free(rt, &mut pass.pass) else {
            return Err(Refusal::Worn);
        };
        let hold = self.lock.enter(rt, ticket, &mut pass.pass);
        self.make(hold, pass, call)
    }

    /// Answers a call where no ticket is open, and doesn't wait. Takes the steps of `Room::call`.
    ///
    /// Refused with `Busy` where a ticket was open or came between, which is a lost try and uses no draw; else as `call`.
    pub fn try_call(&self, pass: &mut Pass, call: Call) -> Result<Reply, Refusal>
        requires { IsPassOf self.now pass.old }
        ensures pass { IsPassOf self.now pass.new }
        ensures answered { IfOk result (λ reply. Answers (opening self.now) (view pass.old) (view pass.new) call reply) }
        ensures cause { IfErr result (λ e. (e ≡ Why.Busy) ⊎ (e ≡ Why.Worn) ⊎ (e ≡ Why.Memory)) }
        ensures busy { (result ≡ Err Why.Busy) → Loses (view pass.old) (view pass.new) }
        ensures lost { (result ≡ Err Why.Busy) ↔ ((view pass.new).lost ≡ (view pass.old).lost + 1) }
        ensures worn { (result ≡ Err Why.Worn) ↔ ((view pass.old).left ≡ 0) }
        ensures worn_same { (result ≡ Err Why.Worn) → view pass.new ≡ view pass.old }
        ensures memory { (result ≡ Err Why.Memory) → LacksMemory (view pass.old) (view pass.new) }
    {
        match self.lock.try_enter(&mut pass.pass) {
            Ok(hold) => self.make(hold, pass, call),
            Err(TryFault::Busy) => Err(Refusal::Busy),
            Err(TryFault::Worn) => Err(Refusal::Worn),
        }
    }

    /// Hands `count` draws, which may be 0, to a new pass, which has seen the same and has made no call. Constant time:
    /// it neither waits nor takes memory.
    ///
    /// `Worn` where the pass has fewer draws left. Nothing has changed then.
    pub fn split(&self, pass: &mut Pass, count: u64) -> Result<Pass, Worn>
        requires { IsPassOf self.now pass.old }
        ensures pass { IsPassOf self.now pass.new × IfOk result (λ p. IsPassOf self.now p) }
        ensures kept { OnOk result (view pass.new ≡ given_away count (view pass.old)) }
        ensures given { IfOk result (λ p. view p ≡ newcomer count (view pass.old)) }
        ensures worn { IsErr result ↔ ((view pass.old).left < count) }
        ensures worn_same { OnErr result (view pass.new ≡ view pass.old) }
    {
        match self.lock.split(&mut pass.pass, count) {
            Ok(given) => Ok(Pass { pass: given }),
            Err(worn) => Err(worn),
        }
    }

    /// Takes in another pass: its draws, its calls, its lost tries, and the longer of what both have seen. Constant
    /// time: it neither waits nor takes memory.
    pub fn join(&self, pass: &mut Pass, other: Pass)
        requires { IsPassOf self.now pass.old × IsPassOf self.now other }
        ensures pass { IsPassOf self.now pass.new }
        ensures joins { Joins (view pass.old) (view other) (view pass.new) }
    {
        let Pass { pass: other } = other;
        self.lock.join(&mut pass.pass, other);
    }

    /// Each pass takes a turn, `a` before `b`, and waits for it. Afterwards `a` has seen what either had seen, and `b` has
    /// seen what `a` has. Takes the steps of two turns.
    ///
    /// `Worn` where either has no draw left. Nothing has changed then.
    pub fn meet<R: Wait>(&self, rt: &R, a: &mut Pass, b: &mut Pass) -> Result<(), Worn>
        requires { IsPassOf self.now a.old × IsPassOf self.now b.old }
        ensures pass { IsPassOf self.now a.new × IsPassOf self.now b.new }
        ensures met { OnOk result (Meets (view a.old) (view b.old) (view a.new) (view b.new)) }
        ensures worn { IsErr result ↔ (((view a.old).left ≡ 0) ⊎ ((view b.old).left ≡ 0)) }
        ensures worn_same { OnErr result ((view a.new ≡ view a.old) × (view b.new ≡ view b.old)) }
    {
        self.lock.meet(rt, &mut a.pass, &mut b.pass)
    }

    /// Ends the sharing by one try: the room, whose history begins with all that the pass has seen. Constant time: it
    /// neither waits nor takes memory.
    ///
    /// The history is just what the pass has seen, where it has all draws but those of the finished turns that it knows of:
    /// nobody can have taken a turn since. So it always is for a pass that was never split.
    ///
    /// Where a ticket is open the try is lost, and the room and the pass come back, the pass with one lost try more.
    pub fn close(self, pass: Pass) -> Result<Room, (SharedRoom, Pass)>
        requires pass { IsPassOf self pass }
        requires left { 0 < (view pass).left }
        ensures closed { IfOk result (λ room. IsPrefix (view pass).seen room.history × (room.opening ≡ opening self)) }
        ensures exact { (view pass).turns + (view pass).left ≡ 2 ^ 62 → IfOk result (λ room. room.history ≡ (view pass).seen) }
        ensures lost { IfErr result (λ r. (r.0 ≡ self) × IsPassOf r.0 r.1 × Loses (view pass) (view r.1)) }
    {
        let SharedRoom { lock } = self;
        let Pass { pass } = pass;
        match lock.close(pass) {
            Ok(kept) => Ok(kept.into_room()),
            Err((lock, pass)) => Err((SharedRoom { lock }, Pass { pass })),
        }
    }

    // Makes the call in the turn of the hold, and ends the turn.
    pub(crate) fn make(
        &self,
        mut hold: Hold<KeptRoom>,
        pass: &mut Pass,
        call: Call,
    ) -> Result<Reply, Refusal>
        requires pass { locks.IsPassOf self.now.lock pass.old.pass }
        requires hold { locks.HasHold pass.old.pass hold }
        requires found { (sight pass.old.pass).found ≡ trail_of hold.value.room.value }
        requires seen { (sight pass.old.pass).seen ≡ trail_of hold.value.room.value }
        requires marked { mark hold.value.room.value.history ≤ ticket_of hold }
        requires most { ticket_of hold < 2 ^ 62 }
        ensures pass { IsPassOf self.now pass.new }
        ensures ends { EndsTurn (opening self.now) (view pass.old) (view pass.new) call result }
        ensures keeps { Keeps (view pass.old) (view pass.new) }
    {
        let number = hold.ticket();
        let done = hold.value.call(number, call);
        self.lock.leave(hold, &mut pass.pass);
        match done {
            Ok(reply) => Ok(reply),
            Err(_) => Err(Refusal::Memory),
        }
    }
}
