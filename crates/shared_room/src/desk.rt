//! A desk over a shared room and a pass, which both are borrowed.
ghost use Rattle.std.specs.Prelude.{◌≡◌};

use crate::pass::Pass;
use crate::shared::SharedRoom;
use opid::Refusal;
use room::{Call, Desk, DeskFault, Reply};
use std::sync::Wait;

/// Answers calls through a pass, each at its turn. Whoever lent the pass has it afterwards as the desk left it.
#[derive(Drop)]
pub struct PassDesk<'a, R: Wait> {
    rt: &'a R,
    room: &'a SharedRoom,
    pass: &'a mut Pass,
}

impl<'a, R: Wait> PassDesk<'a, R> {
    /// A desk over the room and the pass, which has to be one of the room. Constant time; takes no memory.
    pub fn new(rt: &'a R, room: &'a SharedRoom, pass: &'a mut Pass) -> PassDesk<'a, R>
        ensures over { (result.room ≡ room.entry) × (result.pass.now ≡ pass.old) }
        ensures same_reference { result.pass.ghost_name ≡ pass.entry.ghost_name }
    {
        PassDesk { rt, room, pass }
    }
}

impl<'a, R: Wait> Desk for PassDesk<'a, R> {
    ghost use Rattle.shared_room.specs.Views.{view, opening, sight_through, IsPassOf};
    ghost use Rattle.shared_room.specs.Turns.{Answers, FaultsPass};
    ghost use Rattle.shared_room.specs.Internal.DeskLaws.{pass_sight, pass_answers, pass_passes};
    ghost use Rattle.std.proofs.Common.{ap};

    ghost sight = { λ desk. sight_through (opening desk.room.now) (view desk.pass.now) };

    ghost ready = { λ desk. IsPassOf desk.room.now desk.pass.now };

    // The room is the same, and the pass is lent to the desk throughout.
    ghost step = { λ old call reply new.
        (new.room.now ≡ old.room.now) × (new.pass.ghost_name ≡ old.pass.ghost_name)
        × Answers (opening old.room.now) (view old.pass.now) (view new.pass.now) call reply };

    ghost fault = { λ old _ why new.
        (new.room.now ≡ old.room.now) × (new.pass.ghost_name ≡ old.pass.ghost_name)
        × FaultsPass (view old.pass.now) why (view new.pass.now) };

    /// The room's reply, or why there is none. Waits as `SharedRoom::call` does, and takes its steps.
    fn call(&mut self, call: Call) -> Result<Reply, DeskFault> {
        match self.room.call(self.rt, self.pass, call) {
            Ok(reply) => Ok(reply),
            Err(Refusal::Worn) => Err(DeskFault::Worn),
            Err(_) => Err(DeskFault::Memory),
        }
    }

    ghost sees = { λ desk ok.
        pass_sight (opening desk.room.now) (view desk.pass.now) ok.legal ok.owns ok.distinct ok.short };

    ghost answers = { λ old call reply new _ did.
        pass_answers (opening old.room.now) (opening new.room.now) (view old.pass.now) (view new.pass.now)
        call reply (ap opening did.0) did.2 };

    ghost passes_over = { λ old _ why new _ did.
        pass_passes (opening old.room.now) (opening new.room.now) (view old.pass.now) (view new.pass.now)
        why (ap opening did.0) did.2 };
}
