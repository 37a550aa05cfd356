//! A snapshot read byte by byte, with no tree, where it is spelled as servers spell it.
ghost use Rattle.std.specs.Prelude.{◌≡◌, ◌⊎◌, ◌∷◌, IfOk, IfErr, IfSome};
ghost use Rattle.opid.specs.declared.refusal.Refusal.TheVariants.{Memory, BadSnapshot};
ghost use Rattle.json.specs.Token.{end_array};
ghost use Rattle.operation_json.specs.Packing.{unfolded_all};
ghost use Rattle.snapshot.specs.Snapshot.{StandsFor, StandsForNone};
ghost use Rattle.snapshot.specs.Internal.Coming.{ReadsFormat, OpensLog, ReadsLog, TellsLog};

use crate::gathered::{Gathered, integrate_gathered};
use arrayvec::ArrayString;
use json_bytes::PlainReader;
use operation_json::{behind_first, is_closed, rest_of_item};
use opid::Refusal;
use std::alloc::Global;
use std::str;
use versions::{Doc, MAX_OPERATIONS};

/// The document over the log that the bytes stand for, where `format` comes before `ops`, and each object is spelled as
/// `rest_of_item` reads it, and there are at most 131,072. Nothing is integrated before the whole text is read. None where it is
/// spelled otherwise, has more objects, or a run in format 1. Refused with `BadSnapshot` where the operations are no log, and with
/// `Memory`.
pub(crate) fn read_spelled(alloc: Global, bytes: &[u8]) -> Result<Option<Doc>, Refusal>
    ensures stands { IfOk result (λ r. IfSome r (λ doc. StandsFor bytes.now doc.log)) }
    ensures unreserved { IfOk result (λ r. IfSome r (λ doc. doc.reserved ≡ 0)) }
    ensures cause { IfErr result (λ e. (e ≡ Memory) ⊎ ((e ≡ BadSnapshot) × StandsForNone bytes.now)) }
{
    if !begins_as_log(bytes) {
        return Ok(None);
    }
    let Ok(text) = str::from_utf8(bytes) else {
        return Ok(None);
    };
    let mut reader = PlainReader::new(text);
    let Some(items) = read_members(alloc, &mut reader)? else {
        return Ok(None);
    };
    match integrate_gathered(alloc, items.as_slice()) {
        Ok(doc) => {
            prove!(doc.version() as usize <= MAX_OPERATIONS);
            Ok(Some(doc))
        }
        Err(Refusal::Memory) => Err(Refusal::Memory),
        Err(_) => Err(Refusal::BadSnapshot),
    }
}

// The bytes in which a snapshot's format stands and the opening bracket of its list, with some spaces.
const HEAD: usize = 48;

// Whether the first bytes are those of a snapshot that is read here. Where they aren't, the rest isn't looked at here.
fn begins_as_log(bytes: &[u8]) -> bool {
    match str::from_utf8(&bytes[..bytes.len().min(HEAD)]) {
        Ok(head) => next_head(&mut PlainReader::new(head)).is_some(),
        Err(_) => false,
    }
}

// What the objects of the one object tell that the reader has.
fn read_members(
    alloc: Global,
    reader: &mut PlainReader<'_>,
) -> Result<Option<Vec<Gathered>>, Refusal>
    ensures told { IfOk result (λ r. IfSome r (λ items. ReadsLog reader.old (unfolded_all items.items))) }
    ensures memory { IfErr result (λ e. e ≡ Memory) }
{
    let Some(runs) = next_head(reader) else {
        return Ok(None);
    };
    let Some(items) = rest_of_log(alloc, reader, runs)? else {
        return Ok(None);
    };
    if !is_closed(reader) {
        return Ok(None);
    }
    Ok(Some(items))
}

// Whether the format is the one that has runs, from the bracket that opens the object up to the one that opens the list.
fn next_head(reader: &mut PlainReader<'_>) -> Option<bool>
    ensures { IfSome result (λ runs. OpensLog reader.old runs reader.new) }
{
    if !reader.take_begin_object() || !reader.take_key("format") {
        return None;
    }
    let runs = next_format(reader)?;
    if !reader.take_key("ops") || !reader.take_begin_array() {
        return None;
    }
    Some(runs)
}

// Whether the next value is the format that has runs, where it is one of both.
fn next_format(reader: &mut PlainReader<'_>) -> Option<bool>
    ensures { IfSome result (λ runs. ReadsFormat reader.old runs reader.new) }
{
    match reader.next_number()? {
        1 => Some(false),
        2 => Some(true),
        _ => None,
    }
}

// What the objects tell up to the closing bracket of their list, whose opening one was taken.
fn rest_of_log(
    alloc: Global,
    reader: &mut PlainReader<'_>,
    runs: bool,
) -> Result<Option<Vec<Gathered>>, Refusal>
    ensures told { IfOk result (λ r. IfSome r (λ items. TellsLog runs reader.old (unfolded_all items.items) (end_array ∷ reader.new))) }
    ensures memory { IfErr result (λ e. e ≡ Memory) }
{
    let mut items = Vec::new(alloc);
    let mut text = ArrayString::new();
    for _ in 0..=MAX_OPERATIONS {
        if reader.take_end_array() {
            return Ok(Some(items));
        }
        if items.len() >= MAX_OPERATIONS || !reader.take_begin_object() {
            return Ok(None);
        }
        let Some(item) = rest_of_item(reader, &mut text) else {
            return Ok(None);
        };
        if item.is_run && !runs {
            return Ok(None);
        }
        let gathered = Gathered::new(alloc, item.first, behind_first(text.as_str()))?;
        items.push(gathered)?;
    }
    Ok(None)
}
