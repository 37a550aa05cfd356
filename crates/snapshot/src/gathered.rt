//! The objects of a snapshot's list, kept until the whole text is read, and the document of their operations.
ghost use Rattle.std.specs.Prelude.{◌≡◌, ◌≤◌, ◌+◌, ◌++◌, ◌⊎◌, length, sum, IfOk, IfErr, OnOk};
ghost use Rattle.std.specs.Str.{chars};
ghost use Rattle.opid.specs.declared.refusal.Refusal.TheVariants.{Memory};
ghost use Rattle.opid.specs.Lawful.{IsLawful, GoesOn};
ghost use Rattle.operation_json.specs.Packing.{unfolded, unfolded_all};

use crate::loading::append_operations;
use causal_clock::{MAX_SUM, Op};
use characters::Characters;
use operation_json::next_op;
use opid::{MAX_OPERATIONS, Refusal};
use std::alloc::Global;
use std::marker::Model;
use versions::Doc;

/// What an object of the list tells: an operation, and the characters of the insertions that follow it.
#[derive(Drop)]
pub(crate) struct Gathered {
    first: Op,
    more: Characters,
}

impl Model for Gathered {
    ghost use Rattle.std.specs.Prelude.{◌≤◌, ◌+◌, length, sum};
    ghost use Rattle.opid.specs.declared.limits.TheConstants.{MAX_OPERATIONS};
    ghost use Rattle.operation_json.specs.Packing.{Item as Packed};

    ghost Value = { Packed };

    ghost view = { λ g. record { first = g.first; more = g.more } };

    ghost invariant = { λ g. sum g.first.clock + length g.more ≤ MAX_OPERATIONS };
}

impl Gathered {
    /// The operation, and a copy of the text that follows it, which takes memory above 16 bytes. An error is for want of it.
    pub fn new(alloc: Global, first: Op, more: &str) -> Result<Gathered, Refusal>
        requires { sum first.clock + length (chars more.now) ≤ MAX_SUM }
        ensures value { IfOk result (λ g. g ≡ record { first = first; more = chars more.now }) }
        ensures memory { IfErr result (λ e. e ≡ Memory) }
    {
        let more = Characters::from_str(alloc, more)?;
        Ok(Gathered { first, more })
    }
}

/// The document of the operations that the objects tell, each after those before it. Refused with `Memory`, and where they are no
/// lawful log of at most 131,072 operations.
pub(crate) fn integrate_gathered(alloc: Global, items: &[Gathered]) -> Result<Doc, Refusal>
    ensures told { IfOk result (λ doc. doc.log ≡ unfolded_all items.now) }
    ensures unreserved { IfOk result (λ doc. doc.reserved ≡ 0) }
    ensures cause { IfErr result (λ e. (e ≡ Memory)
        ⊎ (IsLawful (unfolded_all items.now) → length (unfolded_all items.now) ≤ MAX_OPERATIONS → ⊥)) }
{
    let mut doc = Doc::new(alloc);
    let mut ops = Vec::new(alloc);
    for item in items {
        append_item(&mut doc, &mut ops, item)?;
    }
    Ok(doc)
}

// Appends the operations of an object, of which each may follow those before it, by way of a list of them.
fn append_item(doc: &mut Doc, ops: &mut Vec<Op>, item: &Gathered) -> Result<(), Refusal>
    ensures grown { OnOk result (doc.new.log ≡ doc.old.log ++ unfolded item.now) }
    ensures unreserved { OnOk result (doc.old.reserved ≡ 0 → doc.new.reserved ≡ 0) }
    ensures cause { IfErr result (λ e. (e ≡ Memory) ⊎ (GoesOn doc.old.log (unfolded item.now)
        → length doc.old.log + length (unfolded item.now) ≤ MAX_OPERATIONS → ⊥)) }
{
    unfold(ops, item)?;
    append_operations(doc, ops.as_slice())
}

// Puts in the operations of an object, in place of what was there.
fn unfold(ops: &mut Vec<Op>, item: &Gathered) -> Result<(), Refusal>
    ensures told { OnOk result (ops.new.items ≡ unfolded item.now) }
    ensures memory { IfErr result (λ e. e ≡ Memory) }
{
    ops.clear();
    ops.push(item.first)?;
    let mut last = item.first;
    for ch in item.more.as_str().chars() {
        last = next_op(&last, ch);
        ops.push(last)?;
    }
    Ok(())
}
