//! A part of a log read byte by byte, with no tree, where it is spelled as servers spell it.
ghost use Rattle.std.specs.Prelude.{◌≡◌, true, IfOk, IfErr, IfSome};
ghost use Rattle.opid.specs.declared.refusal.Refusal.TheVariants.{Memory};
ghost use Rattle.wire_json.specs.Internal.PartTokens.{OpensPart, ClosesPart, ReadsPart, TellsPart};

use crate::request::put::next_ops;
use causal_clock::Op;
use json_bytes::PlainReader;
use operation_json::is_closed;
use opid::Refusal;
use std::alloc::Global;
use std::str;

/// The number of the first operation and the operations of the part that the bytes tell, at most the first 65, where `from` comes
/// before `ops`, and `r` behind it, and each object is spelled as `rest_of_item` reads it. None where it is spelled otherwise. An error
/// is for want of memory.
pub(crate) fn read_plain_part(
    alloc: Global,
    bytes: &[u8],
) -> Result<Option<(u32, Vec<Op>)>, Refusal>
    ensures told { IfOk result (λ r. IfSome r (λ p. TellsPart bytes.now p.0 p.1.items)) }
    ensures memory { IfErr result (λ e. e ≡ Memory) }
{
    let Ok(text) = str::from_utf8(bytes) else {
        return Ok(None);
    };
    let mut reader = PlainReader::new(text);
    next_part(alloc, &mut reader)
}

// What the one object tells that the reader has.
fn next_part(alloc: Global, reader: &mut PlainReader<'_>) -> Result<Option<(u32, Vec<Op>)>, Refusal>
    ensures told { IfOk result (λ r. IfSome r (λ p. ReadsPart reader.old p.0 p.1.items)) }
    ensures memory { IfErr result (λ e. e ≡ Memory) }
{
    let Some(from) = next_from(reader) else {
        return Ok(None);
    };
    if !reader.take_key("ops") {
        return Ok(None);
    }
    let Some(ops) = next_ops(alloc, reader)? else {
        return Ok(None);
    };
    if !is_rest_of_part(reader) {
        return Ok(None);
    }
    Ok(Some((from, ops)))
}

// The number behind the bracket that opens the object.
fn next_from(reader: &mut PlainReader<'_>) -> Option<u32>
    ensures { IfSome result (λ n. OpensPart reader.old n reader.new) }
{
    if !reader.take_begin_object() || !reader.take_key("from") {
        return None;
    }
    reader.next_number()
}

// Whether just `r` and the bracket that closes the object are left, which are then taken.
fn is_rest_of_part(reader: &mut PlainReader<'_>) -> bool
    ensures { result ≡ true → ClosesPart reader.old }
{
    reader.take_key("r") && reader.take_text("ops") && is_closed(reader)
}
