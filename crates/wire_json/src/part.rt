//! Reading a part of a log, as an `ops` reply tells it.
mod bytes;

ghost use Rattle.std.specs.Prelude.{◌≡◌};
ghost use Rattle.serde_json.specs.View.{view};
ghost use Rattle.wire_json.specs.Part.{part_told, part_in, part_members, part_at};
ghost use Rattle.operation_json.specs.Results.{Gives, same};

use crate::part::bytes::read_plain_part;
use causal_clock::Op;
use operation_json::{check_keys, read_items, read_list, read_number, read_text, read_value};
use opid::{MAX_COUNT, Refusal};
use room_model::Operations;
use serde_json::Value;
use std::alloc::Global;

/// The part of a log that the bytes tell: the number of its first operation in the log, and its operations, at most 64.
///
/// A part is told by the JSON object that an `ops` reply is: its keys are `from`, a number, `ops`, a list of operation objects and
/// run objects, and `r`, whose value is the text `ops`. Refused with the first of these that applies: `BadJson` where the bytes are no
/// JSON text in UTF-8, `BadField` where the value is no object or has no text `r`, `UnknownKind` where `r` is another text,
/// `BadField`, `BadSite` and `BadClock` as of a `put`, and `BadCount` above 64 operations. `Memory` may stand in the place of any
/// answer. One that is spelled as `write_reply` spells it, but for spaces and escapes, is read byte by byte: that takes no memory but the
/// part's. Takes time in proportion to the bytes, and else memory likewise.
pub fn read_part(alloc: Global, bytes: &[u8]) -> Result<(u32, Operations), Refusal>
    ensures { Gives same result (part_told bytes.now) }
{
    if let Some((from, ops)) = read_plain_part(alloc, bytes)? {
        return part(from, ops);
    }
    let value = read_value(alloc, bytes)?;
    read_value_part(alloc, &value)
}

fn read_value_part(alloc: Global, value: &Value) -> Result<(u32, Operations), Refusal>
    ensures { Gives same result (part_in (view value.now)) }
{
    match read_text(value, "r")? {
        "ops" => read_members(alloc, value),
        _ => Err(Refusal::UnknownKind),
    }
}

fn read_members(alloc: Global, value: &Value) -> Result<(u32, Operations), Refusal>
    ensures { Gives same result (part_members (view value.now)) }
{
    check_keys(value, &["from", "ops", "r"])?;
    let from = read_number(value, "from")?;
    let ops = read_items(alloc, read_list(value, "ops")?)?;
    part(from, ops)
}

// The part of these operations, if they aren't too many.
fn part(from: u32, ops: Vec<Op>) -> Result<(u32, Operations), Refusal>
    ensures { result ≡ part_at from ops.items }
{
    if ops.len() > MAX_COUNT as usize {
        return Err(Refusal::BadCount);
    }
    Ok((from, Operations::new(ops)))
}
