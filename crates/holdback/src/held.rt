//! The operations that are held back, in order of arrival.
ghost use Rattle.std.specs.Prelude.{◌≡◌, ◌==◌, ◌<◌, ◌≤◌, ◌+◌, ◌⊎◌, [], true, not, Ok, Err, length, map, max, position};
ghost use Rattle.std.specs.Prelude.{IfOk, IfErr, OnOk, OnErr, IfSome, OnSome, IfNone, MatchOption, IsFalse};
ghost use Rattle.std.specs.List.{prefix_len};
ghost use Rattle.std.specs.Simd.Lanes.{chunk};
ghost use Rattle.opid.specs.declared.refusal.Refusal.TheVariants.{Memory};
ghost use Rattle.opid.specs.Clocks.{entry, is_next};
ghost use Rattle.opid.specs.Operations.{number_of};
ghost use Rattle.opid.specs.declared.arrival.Arrival.TheVariants as arrivals;
ghost use Rattle.opid.specs.Held.{is_same_operation};
ghost use Rattle.opid.specs.Held.{look_for, offered, after_arrival};
ghost use Rattle.holdback.specs.Internal.Packed.{unpacked, AreDue, NoneDue, NoneReadyIn, IsFirstReadyIn};
ghost use Rattle.opid.specs.Held.{first_ready, without_first_ready};

use crate::in_order::InOrder;
use causal_clock::{Clock, Op};
use opid::{Arrival, MAX_HELD, Refusal, SITES, Site};
use std::alloc::Global;
use std::marker::Model;
use std::simd::prelude::*;

// So many numbers are looked at together.
const BLOCK: usize = 16;

/// Operations whose causal past isn't there yet, in order of arrival: at most 1,024 of some 160 bytes each.
#[derive(Drop)]
pub struct Held {
    kept: InOrder,
    // The number of each, packed into one, so that those which can't be meant are passed without a look at the operation.
    numbers: Vec<u32>,
}

impl Model for Held {
    ghost use Rattle.std.specs.Prelude.{◌≡◌, ◌≤◌, map, length, vec_capacity};
    ghost use Rattle.opid.specs.declared.limits.TheConstants.{MAX_HELD};
    ghost use Rattle.opid.specs.Operations.{number_of};
    ghost use Rattle.opid.specs.Held.{HeldOperations};
    ghost use Rattle.holdback.specs.Internal.Packed.{unpacked};

    ghost Value = { HeldOperations };

    ghost view = { λ h. h.kept };

    ghost invariant = { λ h. (length h.kept.ops ≤ MAX_HELD) × (h.kept.reserved ≤ vec_capacity h.numbers)
        × (map unpacked h.numbers.items ≡ map number_of h.kept.ops) };
}

impl Held {
    /// Nothing is held back. Constant time; takes no memory.
    pub fn new(alloc: Global) -> Held
        ensures { result ≡ record { ops = []; reserved = 0 } }
    {
        Held {
            kept: InOrder::new(alloc),
            numbers: Vec::new(alloc),
        }
    }

    /// How many operations are held back. Constant time.
    pub fn len(&self) -> usize
        ensures value { result ≡ length self.now.ops }
        ensures within { result ≤ MAX_HELD }
    {
        self.kept.len()
    }

    /// Whether the operation is held back. Refused with `Conflict` where another one with its number is. Takes a step
    /// for each operation that is held, and no memory.
    pub fn look(&self, op: &Op) -> Result<bool, Refusal>
        ensures { result ≡ look_for op.now self.now.ops }
    {
        match place_of(self.numbers.as_slice(), packed(op)) {
            None => Ok(false),
            Some(place) => {
                if is_same(op, self.kept.get(place)) {
                    Ok(true)
                } else {
                    Err(Refusal::Conflict)
                }
            }
        }
    }

    /// Holds an operation back, behind those that are. Takes a step for each of these.
    ///
    /// Refused, in this order: `Conflict` where another one with its number is held, `HoldFull` where 1,024 are held,
    /// `Memory` only where nothing is reserved.
    pub fn offer(&mut self, op: Op) -> Result<Arrival, Refusal>
        ensures value { IfOk result (λ arrival. offered op self.old.ops ≡ Ok arrival) }
        ensures held { IfOk result (λ arrival. self.new ≡ record self.old { ops = after_arrival arrival op self.old.ops }) }

        // Each cause, and only then; on a refusal all is as before.
        ensures cause { IfErr result (λ e. (offered op self.old.ops ≡ Err e)
            ⊎ ((offered op self.old.ops ≡ Ok arrivals.Kept) × (e ≡ Memory) × (self.old.reserved ≤ length self.old.ops))) }
        ensures err { OnErr result (self.new ≡ self.old) }
    {
        if self.look(&op)? {
            return Ok(Arrival::Again);
        }
        if self.len() >= MAX_HELD {
            return Err(Refusal::HoldFull);
        }
        let number = packed(&op);
        self.numbers.reserve(1)?;
        self.kept.push(op)?;
        self.numbers.push_reserved(number);
        Ok(Arrival::Kept)
    }

    /// Takes out the first operation, in order of arrival, that is ready where just the operations are that the clock
    /// counts. The others keep their order. Takes no memory, a step for each of 32 sites, a step for each operation up to 15 behind
    /// the one that is taken, and the steps of `Clock::ready`, some 32, for those of them that are their sites' next ones; six bytes
    /// are moved for each one behind it.
    #[tactic(auto, using(crate::proofs::Places::taken, crate::proofs::Places::none_taken, crate::proofs::Places::left, crate::proofs::Places::all_left))]
    pub fn take_first_ready(&mut self, clock: &Clock) -> Option<Op>
        ensures taken { result ≡ first_ready clock.now self.old.ops }
        ensures others { self.new ≡ record self.old { ops = without_first_ready clock.now self.old.ops } }
        ensures ready { IfSome result (λ x. is_next x.site x.clock clock.now ≡ true) }
        ensures fewer { OnSome result (length self.new.ops + 1 ≡ length self.old.ops) }
        ensures none { IfNone result (self.new ≡ self.old) }
    {
        match first_ready(&self.kept, self.numbers.as_slice(), clock) {
            None => None,
            Some(place) => {
                self.numbers.remove(place);
                Some(self.kept.remove(place))
            }
        }
    }

    /// Reserves memory, so that the next `n` operations that are kept aren't refused with `Memory`. Constant time; nothing grows where so
    /// many are reserved already. Refused with `Memory`, only where fewer are.
    pub fn reserve(&mut self, n: usize) -> Result<(), Refusal>
        ensures ok { OnOk result (self.new ≡ record self.old { reserved = max self.old.reserved (length self.old.ops + n) }) }
        ensures err { OnErr result (self.new ≡ self.old) }
        ensures memory { IfErr result (λ e. (e ≡ Memory) × (self.old.reserved < length self.old.ops + n)) }
    {
        self.numbers.reserve(n)?;
        self.kept.reserve(n)
    }
}

// Whether the two are one and the same operation.
fn is_same(a: &Op, b: &Op) -> bool
    ensures { result ≡ is_same_operation a.now b.now }
{
    a == b
}

// The operation's number, its site and its count, as one: the site, and 32 times the count.
fn packed(op: &Op) -> u32
    ensures { unpacked result ≡ number_of op.now }
{
    let site = op.site().number();
    let (_, count) = op.number();
    u32::from(site) + count * 32
}

// The place of the first number that is this one. The numbers of a whole block are compared with it at once, and those behind the
// last one by one.
fn place_of(numbers: &[u32], number: u32) -> Option<usize>
    ensures { result ≡ position (λ n. n == number) numbers.now }
{
    for block in 0..numbers.len() / BLOCK {
        let start = block * BLOCK;
        let before = others_before(numbers, start, number);
        if before < BLOCK {
            return Some(start + before);
        }
    }
    for at in numbers.len() / BLOCK * BLOCK..numbers.len() {
        if numbers[at] == number {
            return Some(at);
        }
    }
    None
}

// How many numbers of the block that starts here stand before the first that is this one: all, where none is.
fn others_before(numbers: &[u32], start: usize, number: u32) -> usize
    requires { start + BLOCK ≤ length numbers.now }
    ensures { result ≡ prefix_len (λ n. not (n == number)) (chunk start BLOCK numbers.now) }
{
    let same = u32x16::from_slice(&numbers[start..])
        .simd_eq(u32x16::splat(number))
        .to_bitmask();
    if same == 0 {
        BLOCK
    } else {
        same.trailing_zeros() as usize
    }
}

// The place of the first operation that is ready where just the operations are that the clock counts. A whole block is passed
// by its numbers where none of them is its site's next one; a table of these isn't made where fewer are held than a block.
fn first_ready(ops: &InOrder, numbers: &[u32], clock: &Clock) -> Option<usize>
    requires { map unpacked numbers.now ≡ map number_of ops.now.ops }
    ensures { result ≡ position (λ x. is_next x.site x.clock clock.now) ops.now.ops }
{
    let count = ops.len();
    if count < BLOCK {
        return first_ready_of(ops, 0, count, clock);
    }
    let due = due_numbers(clock);
    for block in 0..count / BLOCK {
        let start = block * BLOCK;
        if has_due(numbers, start, &due) {
            let found = first_ready_of(ops, start, start + BLOCK, clock);
            if found.is_some() {
                return found;
            }
        }
    }
    first_ready_of(ops, count / BLOCK * BLOCK, count, clock)
}

// The number of each site's next operation after those that the clock counts, packed. Takes a step for each site.
fn due_numbers(clock: &Clock) -> [u32; SITES]
    ensures { AreDue clock.now result }
{
    let mut due = [0; SITES];
    for number in 0..SITES {
        if let Ok(site) = Site::new(number as u8) {
            due[number] = number as u32 + (clock.entry(site) + 1) * 32;
        }
    }
    due
}

// Whether one of the block of numbers that starts here is its site's next one. All are looked at, so that no step waits for the
// one before it.
fn has_due(numbers: &[u32], start: usize, due: &[u32; SITES]) -> bool
    requires { start + BLOCK ≤ length numbers.now }
    ensures { IsFalse result → NoneDue due.now numbers.now start (start + BLOCK) }
{
    let mut found = false;
    for place in 0..BLOCK {
        let number = numbers[start + place];
        found |= due[(number % 32) as usize] == number;
    }
    found
}

// The place of the first of these operations that is ready where just the operations are that the clock counts. Of those whose
// number isn't its site's next one nothing else is looked at.
fn first_ready_of(ops: &InOrder, start: usize, end: usize, clock: &Clock) -> Option<usize>
    requires { (start ≤ end) × (end ≤ length ops.now.ops) }
    ensures { MatchOption result (NoneReadyIn clock.now ops.now.ops start end) (IsFirstReadyIn clock.now ops.now.ops start end) }
{
    for place in start..end {
        if is_due(ops.get(place).number(), clock) && clock.ready(ops.get(place)) {
            return Some(place);
        }
    }
    None
}

// Whether the number is its site's next one after the operations that the clock counts.
fn is_due(number: (Site, u32), clock: &Clock) -> bool
    ensures { result ≡ (number.1 == entry clock.now number.0 + 1) }
{
    let (site, count) = number;
    count == clock.entry(site) + 1
}
