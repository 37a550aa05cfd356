//! Writing operation objects.
ghost use Rattle.std.specs.Prelude.{◌≡◌, IfOk, IfErr, OnOk, string_bytes};
ghost use Rattle.opid.specs.declared.refusal.Refusal.TheVariants.{Memory};
ghost use Rattle.operation_json.specs.Text.{IsOperationInRange, IsKindInRange, op_text};

use crate::write::items::text_of_item;
use causal_clock::Op;
use opid::{OpKind, Refusal};
use std::alloc::Global;

/// The one text of an operation: a compact JSON object with the keys that `read_op` asks for, in the order of their
/// bytes, with no line feed.
///
/// Its clock is told by the entries that aren't 0, by rising sites. Refused with `Memory`. Takes time and memory in
/// proportion to the text.
pub fn write_op(alloc: Global, op: &Op) -> Result<String, Refusal>
    ensures text { IfOk result (λ s. string_bytes s ≡ op_text op.now) }
    ensures in_range { OnOk result (IsOperationInRange op.now) }
    ensures memory { IfErr result (λ e. e ≡ Memory) }
{
    check_op(op);
    text_of_item(alloc, op, &[])
}

/// An operation is within its range, as the types of its parts know. Costs nothing.
pub fn check_op(op: &Op)
    ensures { IsOperationInRange op.now }
{
    prove!(op.site().number() < 32);
    check_kind(op.kind());
}

// What an operation names is within its range, as the types of its parts know.
fn check_kind(kind: OpKind)
    ensures { IsKindInRange kind }
{
    match kind {
        OpKind::Ins {
            parent: None,
            ch: _,
        } => {}
        OpKind::Ins {
            parent: Some(stamp),
            ch: _,
        } => prove!(stamp.site.number() < 32),
        OpKind::Del { target } => prove!(target.site.number() < 32),
    }
}
