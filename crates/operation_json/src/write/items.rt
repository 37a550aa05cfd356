//! Packing operations into runs, from the left (docs/decisions, W11).
ghost use Rattle.std.specs.Prelude.{◌≡◌, ◌+◌, ◌++◌, ◌&&◌, nat_lt, length, true, IsTrue, IfOk, IfErr, OnOk, string_bytes};
ghost use Rattle.std.specs.List.{AllByRecursion};
ghost use Rattle.std.specs.Str.{all_scalars};
ghost use Rattle.opid.specs.declared.refusal.Refusal.TheVariants.{Memory};
ghost use Rattle.operation_json.specs.Packing.{joins, is_typed_next, alone, with_one_more, inserted_character, is_child, is_insertion};
ghost use Rattle.operation_json.specs.Text.{IsOperationInRange, item_text, packed_text};

use crate::write::bytes::{push_deletion, push_typed};
use crate::write::operation::check_op;
use arrayvec::ArrayVec;
use causal_clock::Op;
use json_bytes::text_of_bytes;
use opid::{MAX_RUN, OpKind, Refusal, Stamp};
use std::alloc::{AllocError, Global};
use std::marker::Model;

// Most operations' texts take no more, with a line feed behind them.
const LIKELY_LEN: usize = 128;

/// An operation, and the characters of the insertions that follow it.
#[derive(Drop)]
pub struct Item {
    first: Op,
    last: Op,
    more: Vec<char>,
}

impl Model for Item {
    ghost use Rattle.std.specs.Prelude.{◌≡◌, IsTrue};
    ghost use Rattle.std.specs.Str.{all_scalars};
    ghost use Rattle.operation_json.specs.Packing.{Item as Packed, last_typed};

    ghost Value = { Packed };

    ghost view = { λ i. record { first = i.first; more = i.more.items } };

    ghost invariant = { λ i. (i.last ≡ last_typed i.first i.more.items) × IsTrue (all_scalars i.more.items) };
}

impl Item {
    /// An operation by itself. Constant time; takes no memory.
    pub fn new(alloc: Global, op: Op) -> Item
        ensures { result ≡ alone op }
    {
        Item {
            first: op,
            last: op,
            more: Vec::new(alloc),
        }
    }

    /// Whether the operation joins the run. Takes a comparison of two clocks, and no memory.
    pub fn is_joined_by(&self, op: &Op) -> bool
        ensures { result ≡ joins self.now op.now }
    {
        is_next_of_run(self.more.as_slice(), &self.last, op)
    }

    /// Adds an operation that joins the run. Constant time; takes memory where the text grows. An error is for want of it.
    pub fn push(&mut self, op: &Op) -> Result<(), AllocError>
        requires { joins self.old op.now ≡ true }
        ensures { OnOk result (self.new ≡ with_one_more self.old op.now) }
    {
        self.more.push(character_of(op))?;
        self.last = *op;
        Ok(())
    }
}

// Whether a run of an insertion and those of these characters, the last of which is given, goes on with the operation.
#[inline(always)]
fn is_next_of_run(more: &[char], last: &Op, op: &Op) -> bool
    ensures { result ≡ (nat_lt (length more.now + 1) MAX_RUN && is_typed_next last.now op.now) }
{
    more.len() + 1 < MAX_RUN && is_typed_next(last, op)
}

// Whether the first is an insertion, and the second the next one after it. Neither is copied.
fn is_typed_next(x: &Op, y: &Op) -> bool
    ensures { result ≡ is_typed_next x.now y.now }
{
    is_insertion(x.kind())
        && y.site() == x.site()
        && is_child(y.kind(), x.stamp())
        && x.known().is_raised(x.site(), y.known())
}

// Whether it puts a character in.
#[inline(always)]
fn is_insertion(kind: OpKind) -> bool
    ensures { result ≡ is_insertion kind }
{
    matches!(kind, OpKind::Ins { parent: _, ch: _ })
}

// Whether it puts a character in behind the element.
#[inline(always)]
fn is_child(kind: OpKind, of: Stamp) -> bool
    ensures { result ≡ is_child of kind }
{
    match kind {
        OpKind::Ins {
            parent: Some(parent),
            ch: _,
        } => parent == of,
        _ => false,
    }
}

/// Appends the list of operations, packed from the left: an insertion joins the run before it where it is that run's next
/// one and the run has fewer than 64 characters. Takes time in proportion to the operations, and memory where the text grows. An error
/// is for want of it.
pub fn push_packed(out: &mut Vec<u8>, ops: &[Op]) -> Result<(), AllocError>
    ensures text { OnOk result (out.new.items ≡ out.old.items ++ packed_text ops.now) }
    ensures in_range { OnOk result (AllByRecursion IsOperationInRange ops.now) }
{
    let [head, rest @ ..] = ops else {
        return out.extend_from_slice(b"[]");
    };
    out.push(b'[')?;
    check_op(head);
    let mut first = head;
    let mut last = head;
    let mut more: ArrayVec<char, MAX_RUN> = ArrayVec::new();
    for op in rest {
        check_op(op);
        if is_next_of_run(more.as_slice(), last, op) {
            more.push(character_of(op));
        } else {
            push_item(out, first, more.as_slice())?;
            out.push(b',')?;
            first = op;
            more.clear();
        }
        last = op;
    }
    push_item(out, first, more.as_slice())?;
    out.push(b']')?;
    Ok(())
}

// The character that an insertion puts in, and 0 for a deletion, of which nobody asks.
#[inline(always)]
fn character_of(op: &Op) -> char
    ensures { result ≡ inserted_character op.now.kind }
{
    match op.kind() {
        OpKind::Ins { parent: _, ch } => ch,
        OpKind::Del { target: _ } => '\0',
    }
}

// Appends the bytes of an operation, or of a run of an insertion and those that put in more characters behind it.
fn push_item(out: &mut Vec<u8>, first: &Op, more: &[char]) -> Result<(), AllocError>
    ensures { OnOk result (out.new.items ≡ out.old.items ++ item_text (record { first = first.now; more = more.now })) }
{
    match (first.kind(), more) {
        (OpKind::Ins { parent, ch }, []) => push_typed(out, b'i', first, parent, ch, &[]),
        (OpKind::Ins { parent, ch }, more) => push_typed(out, b'r', first, parent, ch, more),
        (OpKind::Del { target }, _) => push_deletion(out, first, target),
    }
}

/// The one text of an item: of an operation, as `write_op` has it, or of a run. Refused with `Memory`. Takes time and memory
/// in proportion to the text.
pub fn write_item(alloc: Global, item: &Item) -> Result<String, Refusal>
    ensures text { IfOk result (λ s. string_bytes s ≡ item_text item.now) }
    ensures memory { IfErr result (λ e. e ≡ Memory) }
{
    text_of_item(alloc, &item.first, item.more.as_slice())
}

/// The text of an operation, or of a run of an insertion and those that put in more characters behind it.
pub(crate) fn text_of_item(alloc: Global, first: &Op, more: &[char]) -> Result<String, Refusal>
    requires { IsTrue (all_scalars more.now) }
    ensures text { IfOk result (λ s. string_bytes s ≡ item_text (record { first = first.now; more = more.now })) }
    ensures memory { IfErr result (λ e. e ≡ Memory) }
{
    check_op(first);
    let mut out = Vec::with_capacity(alloc, LIKELY_LEN)?;
    push_item(&mut out, first, more)?;
    Ok(text_of_bytes(out))
}
