//! Splitting and joining passes.
ghost use Rattle.std.specs.Prelude.{◌≡◌, ◌≤◌, ◌<◌, ◌↔◌, IfOk, IsErr, OnErr, OnOk};
ghost use mathlib.Core.List.{IsPrefix};
ghost use Rattle.history_lock.specs.Sights.{kept_draws, given_draws, joined, learned};
ghost use Rattle.history_lock.specs.Turns.{Grows};
ghost use Rattle.history_lock.specs.Locks.{sight, IsPassOf, IsIdle};

use crate::lock::{SERVED, TicketLock, Worn};
use crate::pass::Pass;
use crate::plays::{Amount, Hands, Learns, Takes};
use crate::trailed::Trailed;
use std::marker::Brand;

impl<T: Trailed> TicketLock<T> {
    // The call picks the amount, which is the count.
    pub(crate) fn hand<N: Amount>(&self, pass: &mut Pass<T>, count: u64) -> Pass<T>
        requires pass { IsPassOf self.now pass.old }
        requires amount { (N.amount ≡ count) × (count ≤ (sight pass.old).left) }
        ensures pass { IsPassOf self.now pass.new × IsPassOf self.now result }
        ensures kept { sight pass.new ≡ kept_draws count (sight pass.old) }
        ensures given { sight result ≡ given_draws count (sight pass.old) }
    {
        let seat = self.table.shared.split_seat::<Hands<N>>(&mut pass.seat);
        pass.left -= count;
        Pass {
            seat,
            left: count,
            idle: true,
        }
    }

    /// Hands `count` draws to a new pass, which has seen the same and has made no entry. Constant time: it neither waits nor
    /// takes memory.
    ///
    /// `Worn` where the pass has fewer draws left. It may be 0.
    pub fn split(&self, pass: &mut Pass<T>, count: u64) -> Result<Pass<T>, Worn>
        requires { IsPassOf self.now pass.old }
        ensures pass { IsPassOf self.now pass.new × IfOk result (λ p. IsPassOf self.now p) }
        ensures kept { OnOk result (sight pass.new ≡ kept_draws count (sight pass.old)) }
        ensures given { IfOk result (λ p. sight p ≡ given_draws count (sight pass.old)) }
        ensures grows { Grows (sight pass.old) (sight pass.new) × IfOk result (λ p. Grows (sight pass.old) (sight p)) }
        ensures worn { IsErr result ↔ ((sight pass.old).left < count) }
        ensures worn_same { OnErr result (sight pass.new ≡ sight pass.old) }
    {
        if pass.left < count {
            return Err(Worn);
        }
        Ok(self.hand::<Brand>(pass, count))
    }

    /// Takes in another pass: its draws, its entries, its lost tries, and the longer of what both have seen.
    /// Constant time: it neither waits nor takes memory.
    pub fn join(&self, pass: &mut Pass<T>, other: Pass<T>)
        requires pass { IsPassOf self.now pass.old × IsPassOf self.now other }
        requires idle { IsIdle pass.old × IsIdle other }
        ensures pass { IsPassOf self.now pass.new }
        ensures joined { sight pass.new ≡ learned (joined (sight pass.old) (sight other)) }
        ensures seen { IsPrefix (sight pass.old).seen (sight pass.new).seen × IsPrefix (sight other).seen (sight pass.new).seen }
        ensures account { IsPrefix (sight pass.old).ends (sight pass.new).ends × IsPrefix (sight other).ends (sight pass.new).ends }
        ensures grows { Grows (sight pass.old) (sight pass.new) × Grows (sight other) (sight pass.new) }
    {
        let (seat, left) = other.into_parts();
        self.table.shared.join_seat::<Takes>(&mut pass.seat, seat);
        // None of the seven steps: by this load the pass knows that the longer of both trails begins with the other.
        self.table.shared.load::<Learns>(&mut pass.seat, SERVED);
        pass.left += left;
    }
}
