//! What a `put` hands over, by its keys, and byte by byte where its operations are spelled as servers spell them.
ghost use Rattle.std.specs.Prelude.{◌≡◌, codes, IfOk, IfErr, IfSome};
ghost use Rattle.opid.specs.declared.refusal.Refusal.TheVariants.{Memory};
ghost use Rattle.room_model.specs.declared.call.Call.TheVariants.{Put};
ghost use Rattle.wire_json.specs.Request.{unless_too_many, put_call};
ghost use Rattle.wire_json.specs.Internal.CallTokens.{ReadsOps, ReadsRest};
ghost use Rattle.wire_json.specs.Internal.Flat.{fields_data};
ghost use Rattle.operation_json.specs.Results.{Gives, same};

use crate::request::fields::Fields;
use arrayvec::ArrayString;
use causal_clock::Op;
use json_bytes::{MAX_TEXT, PlainReader};
use operation_json::{behind_first, is_closed, rest_of_item, unfold_run};
use opid::{MAX_COUNT, MAX_REQUEST_BYTES, Refusal};
use room_model::{Call, Operations};
use std::alloc::Global;

pub(crate) fn read_put(alloc: Global, fields: &Fields<'_>) -> Result<Call, Refusal>
    ensures { Gives same result (put_call (fields_data fields.now)) }
{
    fields.check_keys(&["t", "ops"])?;
    let ops = fields.operations(alloc, "ops")?;
    Ok(put_of(alloc, ops))
}

// What a `put` has behind its kind: operation objects and run objects, each spelled as `rest_of_item` reads it. The call has none
// of more than 64 operations.
pub(crate) fn rest_of_put(
    alloc: Global,
    reader: &mut PlainReader<'_>,
) -> Result<Option<Call>, Refusal>
    ensures told { IfOk result (λ r. IfSome r (λ call. ReadsRest (codes "put") reader.old call)) }
    ensures memory { IfErr result (λ e. e ≡ Memory) }
{
    if !reader.take_key("ops") {
        return Ok(None);
    }
    let Some(ops) = next_ops(alloc, reader)? else {
        return Ok(None);
    };
    if !is_closed(reader) {
        return Ok(None);
    }
    Ok(Some(put_of(alloc, ops)))
}

// The `put` of these operations, or of none where they are more than a room takes, which refuses either: a refused call is recorded, and
// takes as little memory as it can. Constant time, beside letting them go.
fn put_of(alloc: Global, ops: Vec<Op>) -> Call
    ensures { result ≡ Put (unless_too_many ops.items) }
{
    let taken = if ops.len() > MAX_COUNT as usize {
        Vec::new(alloc)
    } else {
        ops
    };
    Call::Put(Operations::new(taken))
}

// The operations of the next value, a list of objects, of which no request has as many as it may have bytes: at most the first 65.
pub(crate) fn next_ops(
    alloc: Global,
    reader: &mut PlainReader<'_>,
) -> Result<Option<Vec<Op>>, Refusal>
    ensures told { IfOk result (λ r. IfSome r (λ ops. ReadsOps reader.old ops.items reader.new)) }
    ensures memory { IfErr result (λ e. e ≡ Memory) }
{
    if !reader.take_begin_array() {
        return Ok(None);
    }
    let mut text: ArrayString<MAX_TEXT> = ArrayString::new();
    let mut ops = Vec::new(alloc);
    for _ in 0..MAX_REQUEST_BYTES {
        if reader.take_end_array() {
            return Ok(Some(ops));
        }
        if !reader.take_begin_object() {
            return Ok(None);
        }
        let Some(item) = rest_of_item(reader, &mut text) else {
            return Ok(None);
        };
        unfold_run(&mut ops, item.first, behind_first(text.as_str()))?;
    }
    Ok(None)
}
