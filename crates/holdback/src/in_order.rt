//! Operations in an order of their own. Each stays in its slot; where one is taken out, the numbers of the slots alone move up.
ghost use Rattle.std.specs.Prelude.{◌≡◌, ◌<◌, ◌≤◌, ◌+◌, ◌++◌, [], ◌∷◌, length, max, slice_index_or};
ghost use Rattle.std.specs.Prelude.{IfErr, OnOk, OnErr};
ghost use Rattle.std.specs.List.{remove};
ghost use Rattle.opid.specs.declared.refusal.Refusal.TheVariants.{Memory};

use causal_clock::Op;
use opid::{MAX_HELD, Refusal};
use std::alloc::Global;
use std::marker::Model;

/// Operations in their order, at most 1,024. What is taken out leaves its slot free, and a later one is put there.
#[derive(Drop)]
pub(crate) struct InOrder {
    slots: Vec<Op>,
    // The slots of the operations, in order, and behind them those that are free.
    order: Vec<u16>,
    len: usize,
    reserved: usize,
}

impl Model for InOrder {
    ghost use Rattle.std.specs.Prelude.{◌≡◌, ◌≤◌, vec_len, vec_capacity};
    ghost use Rattle.opid.specs.declared.limits.TheConstants.{MAX_HELD};
    ghost use Rattle.opid.specs.Held.{HeldOperations};
    ghost use Rattle.holdback.specs.Internal.Slots.{arranged, AreSlots};

    ghost Value = { HeldOperations };

    ghost view = { λ h. record { ops = arranged h.slots.items h.order.items h.len; reserved = h.reserved } };

    ghost invariant = { λ h. (vec_len h.slots ≤ MAX_HELD) × (h.reserved ≤ vec_capacity h.slots) × (h.reserved ≤ vec_capacity h.order)
        × (vec_len h.order ≡ vec_len h.slots) × (h.len ≤ vec_len h.slots) × AreSlots (vec_len h.slots) h.order.items };
}

impl InOrder {
    /// No operations. Constant time; takes no memory.
    pub fn new(alloc: Global) -> InOrder
        ensures { result ≡ record { ops = []; reserved = 0 } }
    {
        InOrder {
            slots: Vec::new(alloc),
            order: Vec::new(alloc),
            len: 0,
            reserved: 0,
        }
    }

    /// How many operations there are. Constant time.
    #[tactic(auto, using(crate::proofs::Slotted::arranged_length))]
    pub fn len(&self) -> usize
        ensures value { result ≡ length self.now.ops }
        ensures within { result ≤ MAX_HELD }
    {
        self.len
    }

    /// The operation at this place. Constant time.
    pub fn get(&self, place: usize) -> &Op
        requires { place < length self.now.ops }
        ensures { result.now ≡ slice_index_or self.now.ops place result.now }
    {
        &self.slots[usize::from(self.order[place])]
    }

    /// Puts an operation behind the others, into a free slot where there is one. Constant time. Refused with `Memory`, only
    /// where nothing is reserved.
    pub fn push(&mut self, op: Op) -> Result<(), Refusal>
        requires { length self.old.ops < MAX_HELD }
        ensures ok { OnOk result (self.new ≡ record self.old { ops = self.old.ops ++ op ∷ [] }) }
        ensures err { OnErr result (self.new ≡ self.old) }
        ensures memory { IfErr result (λ e. (e ≡ Memory) × (self.old.reserved ≤ length self.old.ops)) }
    {
        if self.len < self.slots.len() {
            let slot = usize::from(self.order[self.len]);
            self.slots[slot] = op;
            self.len += 1;
            return Ok(());
        }
        self.order.reserve(1)?;
        let slot = self.len as u16;
        self.slots.push(op)?;
        self.order.push_reserved(slot);
        self.len += 1;
        Ok(())
    }

    /// Takes out the operation at this place. Takes no memory; two bytes are moved for each one behind it. Its slot is the first to
    /// be used again.
    pub fn remove(&mut self, place: usize) -> Op
        requires { place < length self.old.ops }
        ensures value { result ≡ slice_index_or self.old.ops place result }
        ensures others { self.new ≡ record self.old { ops = remove self.old.ops place } }
    {
        let slot = self.order[place];
        self.order.copy_within(place + 1..self.len, place);
        self.len -= 1;
        self.order[self.len] = slot;
        self.slots[usize::from(slot)]
    }

    /// Reserves memory for the next `n`. Constant time; nothing grows where so many are reserved already. Refused with `Memory`,
    /// only where fewer are.
    pub fn reserve(&mut self, n: usize) -> Result<(), Refusal>
        ensures ok { OnOk result (self.new ≡ record self.old { reserved = max self.old.reserved (length self.old.ops + n) }) }
        ensures err { OnErr result (self.new ≡ self.old) }
        ensures memory { IfErr result (λ e. (e ≡ Memory) × (self.old.reserved < length self.old.ops + n)) }
    {
        if self.len <= self.reserved && n <= self.reserved - self.len {
            return Ok(());
        }
        let more = n.saturating_sub(self.slots.len() - self.len);
        self.slots.reserve(more)?;
        self.order.reserve(more)?;
        self.reserved = self.len + n;
        Ok(())
    }
}
