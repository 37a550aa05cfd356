//! Passes that tell each other what they have seen.
ghost use Rattle.std.specs.Prelude.{◌≡◌, ◌+◌, length, ◌≤◌, ◌<◌, ◌⊎◌, ◌↔◌, IsErr, OnErr, OnOk};
ghost use Rattle.history_lock.specs.Locks.{sight, IsPassOf, IsIdle, Visits, Learns, Meets};
ghost use Rattle.history_lock.specs.Turns.{Grows, TookTurn, TookTurns};

use crate::lock::{TicketLock, Worn};
use crate::pass::Pass;
use crate::trailed::Trailed;
use std::marker::Brand;
use std::sync::Wait;

impl<T: Trailed> TicketLock<T> {
    // Takes a turn and leaves the value as it is.
    fn visit<R: Wait>(&self, rt: &R, pass: &mut Pass<T>)
        requires pass { IsPassOf self.now pass.old }
        requires idle { IsIdle pass.old }
        requires left { 0 < (sight pass.old).left }
        ensures pass { IsPassOf self.now pass.new × IsIdle pass.new }
        ensures visits { Visits (sight pass.old) (sight pass.new) }
        ensures turn { TookTurn (sight pass.new) × Grows (sight pass.old) (sight pass.new)
            × (length (sight pass.old).ends ≤ (sight pass.new).drawn) }
    {
        match self.draw(pass) {
            Ok(ticket) => {
                let hold = self.enter(rt, ticket, pass);
                self.leave(hold, pass);
            }
            Err(_) => unreachable!(),
        }
    }

    // `to` has then seen what `from` has seen.
    fn tell(&self, from: &mut Pass<T>, to: &mut Pass<T>)
        requires pass { IsPassOf self.now from.old × IsPassOf self.now to.old }
        requires idle { IsIdle from.old × IsIdle to.old }
        ensures pass { IsPassOf self.now from.new × IsPassOf self.now to.new }
        ensures idle { IsIdle from.new × IsIdle to.new }
        ensures from { sight from.new ≡ sight from.old }
        ensures to { Learns (sight from.old) (sight to.old) (sight to.new) }
        ensures grows { Grows (sight to.old) (sight to.new) × Grows (sight from.old) (sight to.new) }
    {
        let note = self.hand::<Brand>(from, 0);
        self.join(to, note);
    }

    /// Each pass takes a turn, `a` before `b`, and waits for it. Afterwards `a` has seen what either had seen, and
    /// `b` has seen what `a` has. Takes the steps of two turns.
    ///
    /// `Worn` where either has no draw left. Both are looked at first, so that nothing has changed then.
    pub fn meet<R: Wait>(&self, rt: &R, a: &mut Pass<T>, b: &mut Pass<T>) -> Result<(), Worn>
        requires pass { IsPassOf self.now a.old × IsPassOf self.now b.old }
        requires idle { IsIdle a.old × IsIdle b.old }
        ensures pass { IsPassOf self.now a.new × IsPassOf self.now b.new }
        ensures idle { IsIdle a.new × IsIdle b.new }
        ensures met { OnOk result (Meets (sight a.old) (sight b.old) (sight a.new) (sight b.new)) }
        ensures turns { OnOk result (TookTurns (sight a.old) (sight b.old) (sight a.new) (sight b.new)) }
        ensures worn { IsErr result ↔ (((sight a.old).left ≡ 0) ⊎ ((sight b.old).left ≡ 0)) }
        ensures worn_same { OnErr result ((sight a.new ≡ sight a.old) × (sight b.new ≡ sight b.old)) }
    {
        if a.left == 0 || b.left == 0 {
            return Err(Worn);
        }
        self.tell(b, a);
        self.visit(rt, a);
        self.tell(a, b);
        self.visit(rt, b);
        Ok(())
    }
}
