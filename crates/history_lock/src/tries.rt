//! Trying for the value, and the end of a lock.
ghost use Rattle.std.specs.Prelude.{◌≡◌, ℕ, List, ◌+◌, ◌^◌, ◌≤◌, ◌<◌, ◌↔◌, IfOk, OnErr, IfErr};
ghost use mathlib.Core.List.{IsPrefix};
ghost use Rattle.history_lock.specs.declared.lock.TryFault.TheVariants.{Busy, Worn};
ghost use Rattle.history_lock.specs.Sights.{won, gave_up, peeked_at};
ghost use Rattle.history_lock.specs.Told.{Finds};
ghost use Rattle.history_lock.specs.Turns.{LeftFor, Grows};
ghost use Rattle.history_lock.specs.Locks.{sight, ticket_of, opening_of, IsPassOf, IsIdle, HasHold};

use crate::lock::{Hold, NEXT, SERVED, Ticket, TicketLock, TryFault};
use crate::pass::Pass;
use crate::plays::{Peeks, Tries};
use crate::trailed::Trailed;

impl<T: Trailed> TicketLock<T> {
    /// Takes the value, where no ticket is open: two steps, which neither wait nor take memory.
    ///
    /// `Worn` where the pass has no draw left. `Busy` where a ticket was open or came between; that is a lost try,
    /// which uses no draw.
    pub fn try_enter(&self, pass: &mut Pass<T>) -> Result<Hold<T>, TryFault>
        requires pass { IsPassOf self.now pass.old }
        requires idle { IsIdle pass.old }
        ensures pass { IsPassOf self.now pass.new }
        ensures hold { IfOk result (λ h. HasHold pass.new h) }
        ensures found { IfOk result (λ h. sight pass.new
            ≡ won (peeked_at (sight pass.old) (ticket_of h)) (ticket_of h) (sight pass.new).ends (T.trail h.value)) }
        ensures turn { IfOk result (λ h. Finds T.trail T.mark (sight pass.old) (sight pass.new) (ticket_of h) h.value) }
        ensures first { IfOk result (λ h. ticket_of h ≡ 0 → T.trail h.value ≡ opening_of T.trail self.now) }
        ensures grows { Grows (sight pass.old) (sight pass.new) }
        ensures below { IfOk result (λ h. ticket_of h + (sight pass.old).left ≤ 2 ^ 62) }
        ensures idle { OnErr result (IsIdle pass.new) }
        ensures busy { (result ≡ Err TryFault.Busy) → ((n : ℕ) × (sight pass.new ≡ gave_up (peeked_at (sight pass.old) n))) }
        ensures lost { (result ≡ Err TryFault.Busy) ↔ ((sight pass.new).lost ≡ (sight pass.old).lost + 1) }
        ensures worn { (result ≡ Err TryFault.Worn) ↔ ((sight pass.old).left ≡ 0) }
        ensures worn_same { (result ≡ Err TryFault.Worn) → sight pass.new ≡ sight pass.old }
    {
        if pass.left == 0 {
            return Err(TryFault::Worn);
        }
        let served = self.table.shared.load::<Peeks>(&mut pass.seat, SERVED);
        let found = self
            .table
            .shared
            .compare_exchange::<Tries>(&mut pass.seat, NEXT, served, served + 1);
        if found != served {
            return Err(TryFault::Busy);
        }
        pass.left -= 1;
        pass.idle = false;
        // Right, since `served` never falls and is never above `next`: where `next` is still the peeked number so is
        // `served`, and it is this ticket's turn.
        match self.table.shared.exchange(&mut pass.seat, 0, None) {
            Some(value) => Ok(Hold {
                value,
                turn: Ticket { number: served },
            }),
            None => unreachable!(),
        }
    }

    /// Ends the lock by one try: the value, whose trail begins with all that the pass has seen. It neither waits nor
    /// takes memory. Constant time.
    ///
    /// A pass that has all draws but those of the finished turns that it knows of gets just what the last of these
    /// left. The value's mark is at most 2^62 less the draws that the pass has left.
    ///
    /// Where a ticket is open the try is lost, and the lock and the pass come back, the pass with one lost try more.
    pub fn close(self, mut pass: Pass<T>) -> Result<T, (TicketLock<T>, Pass<T>)>
    where
        T: Drop,
        requires pass { IsPassOf self pass }
        requires idle { IsIdle pass }
        requires left { 0 < (sight pass).left }
        ensures closed { IfOk result (λ x. IsPrefix (sight pass).seen (T.trail x)) }
        ensures exact { IfOk result (λ x. (n : ℕ) (trail : List T.Entry) → n + (sight pass).left ≡ 2 ^ 62
            → LeftFor (sight pass) n trail → T.trail x ≡ trail) }
        ensures marked { IfOk result (λ x. T.mark x + (sight pass).left ≤ 2 ^ 62) }
        ensures lock { IfErr result (λ r. (r.0 ≡ self) × IsPassOf self r.1) }
        ensures lost { IfErr result (λ r. (n : ℕ) × (sight r.1 ≡ gave_up (peeked_at (sight pass) n))) }
    {
        match self.try_enter(&mut pass) {
            Ok(hold) => {
                let Hold { value, turn } = hold;
                let Ticket { number: _ } = turn;
                Ok(value)
            }
            Err(_) => Err((self, pass)),
        }
    }
}
