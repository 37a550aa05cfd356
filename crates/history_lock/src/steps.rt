//! A lock and its turns: new, draw, enter and leave.
ghost use Rattle.std.specs.Prelude.{◌≡◌, ◌+◌, ◌^◌, ◌≤◌, ◌↔◌, IfOk, IsErr, OnErr, IfErr};
ghost use mathlib.Core.List.{IsPrefix};
ghost use Rattle.history_lock.specs.Sights.{opened, drew, took, finished};
ghost use Rattle.history_lock.specs.Told.{Finds};
ghost use Rattle.history_lock.specs.Turns.{LeftFor, Grows};
ghost use Rattle.history_lock.specs.Locks.{sight, number_of, ticket_of, opening_of, IsPassOf, HasDrawn, HasHold, IsIdle};

use crate::bells::{Bells, Sleepers};
use crate::lobby::Lobby;
use crate::lock::{Hold, NEXT, SERVED, Ticket, TicketLock, Worn};
use crate::pass::Pass;
use crate::plays::{Draws, Leaves, Looks};
use crate::trailed::Trailed;
use atomic_table::Table;
use std::alloc::{AllocError, Global};
use std::hint::spin_loop;
use std::snapshot::Snapshot;
use std::sync::Wait;

// How often a thread looks before it sleeps, where its turn is the next.
const LOOKS_AS_NEXT: u32 = 64;

impl<T: Trailed> TicketLock<T> {
    /// A lock round the value, and the first pass, which has 2^62 draws and has seen the value's trail.
    ///
    /// The only call of a lock that takes memory, and the only error is that there is none; the value is dropped then. Constant
    /// time, beside that drop.
    pub fn new(alloc: Global, value: T) -> Result<(TicketLock<T>, Pass<T>), AllocError>
    where
        T: Drop,
        requires { T.mark value ≡ 0 }
        ensures pass { IfOk result (λ r. IsPassOf r.0 r.1) }
        ensures opening { IfOk result (λ r. opening_of T.trail r.0 ≡ T.trail value) }
        ensures opened { IfOk result (λ r. sight r.1 ≡ opened (2 ^ 62) (T.trail value)) }
    {
        let about = Snapshot::of(&value);
        let mut slots = Vec::new(alloc);
        slots.push(Some(value))?;
        match Table::new(alloc, &[0, 0], slots, &about) {
            Ok((table, seat)) => Ok((
                TicketLock {
                    table,
                    first: Sleepers::new(),
                    bells: Bells::new(),
                    lobby: Lobby::new(),
                },
                Pass {
                    seat,
                    left: 1 << 62,
                    idle: true,
                },
            )),
            Err(_) => Err(AllocError),
        }
    }

    /// Draws the next ticket: one step, which neither waits nor takes memory. `Worn` where the pass has no draw left.
    ///
    /// Tickets are numbered from 0 on, and all draws together are at most 2^62, so the number cannot wrap.
    pub fn draw(&self, pass: &mut Pass<T>) -> Result<Ticket, Worn>
        requires pass { IsPassOf self.now pass.old }
        requires idle { IsIdle pass.old }
        ensures pass { IsPassOf self.now pass.new }
        ensures ok { IfOk result (λ t. sight pass.new ≡ drew (sight pass.old) (number_of t)) }
        ensures grows { Grows (sight pass.old) (sight pass.new) }
        ensures below { IfOk result (λ t. number_of t + (sight pass.old).left ≤ 2 ^ 62) }
        ensures worn { IsErr result ↔ ((sight pass.old).left ≡ 0) }
        ensures worn_same { OnErr result (sight pass.new ≡ sight pass.old) }
    {
        if pass.left == 0 {
            return Err(Worn);
        }
        let shared = &self.table.shared;
        let number = shared.fetch_add::<Draws>(&mut pass.seat, NEXT, 1);
        pass.left -= 1;
        pass.idle = false;
        Ok(Ticket { number })
    }

    // The value, where it is the ticket's turn, or else the ticket whose turn it is.
    fn look(&self, ticket: &Ticket, pass: &mut Pass<T>) -> Result<T, u64>
        requires pass { IsPassOf self.now pass.old }
        requires ticket { HasDrawn pass.old ticket.now }
        ensures pass { IsPassOf self.now pass.new }
        ensures found { IfOk result (λ x. (sight pass.new ≡ took (sight pass.old) (sight pass.new).ends (T.trail x))
            × Finds T.trail T.mark (sight pass.old) (sight pass.new) (number_of ticket.now) x) }
        ensures not_yet { IfErr result (λ _. sight pass.new ≡ sight pass.old) }
    {
        let served = self.table.shared.load::<Looks>(&mut pass.seat, SERVED);
        if served != ticket.number {
            return Err(served);
        }
        // Right, since no other pass reaches for the slot: from the load that found this ticket's turn until `leave`
        // moves `served` on, the slot is this pass's.
        match self.table.shared.exchange(&mut pass.seat, 0, None) {
            Some(value) => Ok(value),
            None => unreachable!(),
        }
    }

    /// Waits for the ticket's turn and takes the value.
    ///
    /// As the next in line it looks 64 times, and then sleeps on the number of the ticket that is served until a
    /// `leave` wakes it. Further back it sleeps beside the bell of its ticket until it is the next in line.
    /// Beside the wait it takes constant time, with one look each time that it is woken, and no memory.
    pub fn enter<R: Wait>(&self, rt: &R, ticket: Ticket, pass: &mut Pass<T>) -> Hold<T>
        requires pass { IsPassOf self.now pass.old }
        requires ticket { HasDrawn pass.old ticket }
        ensures pass { IsPassOf self.now pass.new × HasHold pass.new result }
        ensures found { sight pass.new ≡ took (sight pass.old) (sight pass.new).ends (T.trail result.value) }
        ensures turn { Finds T.trail T.mark (sight pass.old) (sight pass.new) (number_of ticket) result.value }
        ensures first { number_of ticket ≡ 0 → T.trail result.value ≡ opening_of T.trail self.now }
    {
        let mut looks = 0;
        for _ in rt.forever() {
            match self.look(&ticket, pass) {
                Ok(value) => {
                    return Hold {
                        value,
                        turn: ticket,
                    };
                }
                Err(served) => {
                    if ticket.number.wrapping_sub(served) > 1 {
                        self.sleep_behind(rt, &ticket);
                    } else if looks < LOOKS_AS_NEXT {
                        looks += 1;
                        spin_loop();
                    } else {
                        self.sleep(rt, &ticket);
                    }
                }
            }
        }
        unreachable!()
    }

    /// Gives the value back, for the next ticket's turn. It neither waits nor takes memory. Constant time, beside what the system
    /// takes to wake: who sleeps on the number of the ticket that is served, and who sleeps at the bell of the ticket behind it;
    /// or, where no ticket is open, one of those who wait without a ticket.
    ///
    /// The trail that the hold has then is the one that the next turn finds, whoever takes it; what it has beyond the
    /// one found is the pass's own.
    pub fn leave(&self, hold: Hold<T>, pass: &mut Pass<T>)
        requires pass { IsPassOf self.now pass.old }
        requires hold { HasHold pass.old hold }
        requires grown { IsPrefix (sight pass.old).found (T.trail hold.value) }
        requires marked { T.mark hold.value ≤ ticket_of hold + 1 }
        ensures pass { IsPassOf self.now pass.new }
        ensures left { sight pass.new ≡ finished (sight pass.old) (T.trail hold.value) }
        ensures next { LeftFor (sight pass.new) (ticket_of hold + 1) (T.trail hold.value) }
        ensures grows { Grows (sight pass.old) (sight pass.new) }
    {
        let Hold { value, turn } = hold;
        let Ticket { number } = turn;
        let shared = &self.table.shared;
        // Right, since the slot is this pass's until the next line gives the turn on: the value is home before
        // another pass can reach for it.
        match shared.exchange(&mut pass.seat, 0, Some(value)) {
            None => {}
            Some(_) => unreachable!(),
        }
        shared.fetch_add::<Leaves>(&mut pass.seat, SERVED, 1);
        pass.idle = true;
        self.wake(number.wrapping_add(1));
    }
}
