//! A look at a shared room: a turn that records nothing.
ghost use Rattle.std.specs.Prelude.{◌≡◌, ◌⊎◌, ◌↔◌, IfOk, IfErr};
ghost use Rattle.opid.specs.declared.refusal.Refusal.TheVariants as Why;
ghost use Rattle.shared_room.specs.Views.{view, opening, IsPassOf};
ghost use Rattle.shared_room.specs.Turns.{Visits};
ghost use Rattle.shared_room.specs.Looks.{ShowsRoom};

use crate::pass::Pass;
use crate::shared::SharedRoom;
use opid::Refusal;
use room::Operations;
use std::sync::Wait;

/// What a turn that records nothing found in a room.
#[derive(Debug, Drop)]
pub struct Look {
    /// All operations of the log from the number on that was asked for.
    pub ops: Operations,
    /// How many calls are recorded.
    pub calls: u32,
    /// How many operations the log has.
    pub version: u32,
    /// How many sessions are there.
    pub sessions: u32,
}

impl SharedRoom {
    /// Waits for a turn, and tells the operations of the log behind the first `after`, none where there are no more, and how
    /// full the room is. No call is recorded, so a full history is no hindrance. Uses one draw.
    ///
    /// Refused with `Worn` where the pass has no draw left, and nothing has changed then; and with `Memory`, where the turn was
    /// taken.
    ///
    /// Waits as `call` does. Takes for each operation that is told the steps of `Doc::ops_from`, and some 160 bytes, which are
    /// asked for at once.
    pub fn look<R: Wait>(&self, rt: &R, pass: &mut Pass, after: u32) -> Result<Look, Refusal>
        requires { IsPassOf self.now pass.old }
        ensures pass { IsPassOf self.now pass.new }
        ensures told { IfOk result (λ look. Visits (view pass.old) (view pass.new)
            × ShowsRoom (opening self.now) (view pass.new).found after look) }
        ensures cause { IfErr result (λ e. (e ≡ Why.Worn) ⊎ (e ≡ Why.Memory)) }
        ensures worn { (result ≡ Err Why.Worn) ↔ ((view pass.old).left ≡ 0) }
        ensures worn_same { (result ≡ Err Why.Worn) → view pass.new ≡ view pass.old }
        ensures memory { (result ≡ Err Why.Memory) → Visits (view pass.old) (view pass.new) }
    {
        let Ok(ticket) = self.lock.draw_when_free(rt, &mut pass.pass) else {
            return Err(Refusal::Worn);
        };
        let hold = self.lock.enter(rt, ticket, &mut pass.pass);
        let found = hold.value.look(after);
        self.lock.leave(hold, &mut pass.pass);
        match found {
            Ok(look) => Ok(look),
            Err(_) => Err(Refusal::Memory),
        }
    }
}
