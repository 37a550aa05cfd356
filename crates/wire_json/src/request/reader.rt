//! Reading a request: the steps of its grammar, each a value or the first refusal. Where its keys come in the order in which the page of
//! the protocol tells them, it is read byte by byte, with no tree. All else is read by its keys, which alone knows refusals.
ghost use Rattle.std.specs.Prelude.{◌≡◌, ◌<◌, ◌≤◌, Err, IfSome, length, IfOk, IfErr};
ghost use Rattle.opid.specs.declared.refusal.Refusal.TheVariants.{TooLong, Memory};
ghost use Rattle.wire_json.specs.Request.{request, call_in};
ghost use Rattle.wire_json.specs.Internal.Flat.{fields_data};
ghost use Rattle.operation_json.specs.Results.{Gives, same};
ghost use Rattle.wire_json.specs.Internal.CallTokens.{ReadsKind, ReadsCall, AsksFor};

use crate::request::del::{read_del, rest_of_del};
use crate::request::fields::Fields;
use crate::request::flat::read_flat;
use crate::request::ins::{read_ins, rest_of_ins};
use crate::request::join::{read_join, rest_of_join};
use crate::request::leave::{read_leave, rest_of_leave};
use crate::request::ops::{read_ops, rest_of_ops};
use crate::request::pull::{read_pull, rest_of_pull};
use crate::request::put::{read_put, rest_of_put};
use crate::request::read::{read_read, rest_of_read};
use arrayvec::ArrayVec;
use json::Scratch;
use json_bytes::PlainReader;
use operation_json::read_value;
use opid::{MAX_REQUEST_BYTES, Refusal};
use room_model::Call;
use std::alloc::Global;
use std::str;

/// Reads requests, one after another, in memory that it keeps: some 16 kB in place, and as many bytes as the longest request
/// that it read token by token.
#[derive(Drop)]
pub struct RequestReader {
    scratch: Scratch,
}

impl RequestReader {
    /// A reader that has read nothing. Constant time: it clears some 16 kB in place. Takes no memory.
    pub fn new(alloc: Global) -> RequestReader {
        RequestReader {
            scratch: Scratch::new(alloc),
        }
    }

    /// The call that a request's bytes ask for, as `read_request` tells. One whose keys come in the order of the protocol's page is
    /// read byte by byte, a `put` if its operations are spelled as `rest_of_item` reads them: that takes no memory but the call's.
    /// Another one with at most eight members, all whole numbers and texts, as every one but a `put` has, is read with no tree.
    /// Takes time in proportion to the bytes, and memory likewise, but for what the reader keeps already.
    pub fn read(&mut self, alloc: Global, bytes: &[u8]) -> Result<Call, Refusal>
        ensures asked { Gives same result (request bytes.now) }
        ensures too_long { MAX_REQUEST_BYTES < length bytes.now → result ≡ Err TooLong }
    {
        if bytes.len() > MAX_REQUEST_BYTES {
            return Err(Refusal::TooLong);
        }
        if let Ok(text) = str::from_utf8(bytes) {
            if may_be_read(bytes) {
                if let Some(call) = read_plain_call(alloc, text) {
                    return call;
                }
            }
            if let Some(call) = read_flat_call(alloc, &mut self.scratch, text) {
                return call;
            }
        }
        let value = read_value(alloc, bytes)?;
        read_call(alloc, &Fields::Tree(&value))
    }
}

/// The call that a request's bytes ask for.
///
/// A request is a JSON object (RFC 8259) whose member `t` names the kind; its other keys are exactly those of the
/// kind, in any order, but that a `join` may have `u`, which is 16: its places then count UTF-16 units. Refused with the
/// first of these that applies to the whole request: `TooLong` above 65,536 bytes, `BadJson` where the bytes are no JSON
/// text in UTF-8, `BadField` where the value is no object or has no text `t`, `UnknownKind` where `t` names no request,
/// `BadField` where a key is missing or too many or a value has a wrong type or range, also in an operation or a run, and
/// then `BadSite` and `BadClock` of operations, as `read_op` tells. The runs of a `put` are unfolded, so that its call
/// holds single operations, or none where there are more than 64, and of the text of an `ins` its call holds at most the first 65
/// characters: a room refuses either as what was asked for. `Memory` may stand in the place of any answer but `TooLong`. Takes time
/// and memory in proportion to the bytes, and clears some 16 kB besides: who reads many keeps a `RequestReader`.
pub fn read_request(alloc: Global, bytes: &[u8]) -> Result<Call, Refusal>
    ensures asked { Gives same result (request bytes.now) }
    ensures too_long { MAX_REQUEST_BYTES < length bytes.now → result ≡ Err TooLong }
{
    RequestReader::new(alloc).read(alloc, bytes)
}

// Whether bytes may be read byte by byte, by the first of them, since what gives up later is begun twice: `{"t":`, with a blank behind
// it or none, and two letters with which a kind begins, or a bracket with a space behind it, as in a request with a member a line.
#[inline(always)]
fn may_be_read(bytes: &[u8]) -> bool {
    if bytes.len() < 9 || bytes[0] != b'{' {
        return false;
    }
    if bytes[1] != b'"' {
        return bytes[1] <= b' ';
    }
    if bytes[2] != b't' || bytes[3] != b'"' || bytes[4] != b':' {
        return false;
    }
    let kind = if bytes[5] == b'"' { 6 } else { 7 };
    matches!(
        (bytes[kind], bytes[kind + 1]),
        (b'd', b'e')
            | (b'i', b'n')
            | (b'j', b'o')
            | (b'l', b'e')
            | (b'o', b'p')
            | (b'p', b'u')
            | (b'r', b'e')
    )
}

// The call that the text asks for, if it is spelled as `read_plain` reads it.
fn read_plain_call(alloc: Global, text: &str) -> Option<Result<Call, Refusal>>
    requires { length text.now ≤ MAX_REQUEST_BYTES }
    ensures { IfSome result (λ call. Gives same call (request text.now)) }
{
    match read_plain(alloc, text) {
        Ok(Some(call)) => Some(Ok(call)),
        Ok(None) => None,
        Err(why) => Some(Err(why)),
    }
}

// The call that the text asks for, where it is an object whose first key is `t` and whose others come in the order of the
// protocol's page, its numbers of at most nine digits and its texts of at most 256 bytes; the operations of a `put` are spelled as
// `rest_of_item` reads them. None otherwise, mostly at the first byte that is spelled otherwise. An error is for want of memory.
fn read_plain(alloc: Global, text: &str) -> Result<Option<Call>, Refusal>
    ensures told { IfOk result (λ r. IfSome r (λ call. AsksFor text.now call)) }
    ensures memory { IfErr result (λ e. e ≡ Memory) }
{
    let mut reader = PlainReader::new(text);
    read_object(alloc, &mut reader)
}

// The call that the one object asks for that the reader has.
fn read_object(alloc: Global, reader: &mut PlainReader<'_>) -> Result<Option<Call>, Refusal>
    ensures told { IfOk result (λ r. IfSome r (λ call. ReadsCall reader.old call)) }
    ensures memory { IfErr result (λ e. e ≡ Memory) }
{
    if !reader.take_begin_object() || !reader.take_key("t") {
        return Ok(None);
    }
    read_kind(alloc, reader)
}

// The call that the rest of the one object asks for, from its kind on.
fn read_kind(alloc: Global, reader: &mut PlainReader<'_>) -> Result<Option<Call>, Refusal>
    ensures told { IfOk result (λ r. IfSome r (λ call. ReadsKind reader.old call)) }
    ensures memory { IfErr result (λ e. e ≡ Memory) }
{
    if reader.take_text("ins") {
        return rest_of_ins(alloc, reader);
    }
    if reader.take_text("pull") {
        return Ok(rest_of_pull(reader));
    }
    if reader.take_text("del") {
        return Ok(rest_of_del(reader));
    }
    if reader.take_text("put") {
        return rest_of_put(alloc, reader);
    }
    if reader.take_text("ops") {
        return Ok(rest_of_ops(reader));
    }
    if reader.take_text("read") {
        return Ok(rest_of_read(reader));
    }
    if reader.take_text("join") {
        return Ok(rest_of_join(reader));
    }
    if reader.take_text("leave") {
        return Ok(rest_of_leave(reader));
    }
    Ok(None)
}

// The call that the text asks for, if it is an object with at most eight members, all whole numbers and texts, and no memory is
// refused where the scratch has too little.
fn read_flat_call(alloc: Global, scratch: &mut Scratch, text: &str) -> Option<Result<Call, Refusal>>
    requires { length text.now ≤ MAX_REQUEST_BYTES }
    ensures { IfSome result (λ call. Gives same call (request text.now)) }
{
    let mut members = ArrayVec::new();
    if !read_flat(scratch, text, &mut members) {
        return None;
    }
    Some(read_call(alloc, &Fields::Flat(members.as_slice())))
}

fn read_call(alloc: Global, fields: &Fields<'_>) -> Result<Call, Refusal>
    ensures { Gives same result (call_in (fields_data fields.now)) }
{
    let kind = fields.text("t")?;
    match kind {
        "join" => read_join(fields),
        "ins" => read_ins(alloc, fields),
        "del" => read_del(fields),
        "pull" => read_pull(fields),
        "leave" => read_leave(fields),
        "ops" => read_ops(fields),
        "put" => read_put(alloc, fields),
        "read" => read_read(fields),
        _ => Err(Refusal::UnknownKind),
    }
}
