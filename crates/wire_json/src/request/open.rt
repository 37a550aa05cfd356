//! Reading an opening, which is no request: it names the room that a connection is to use.
ghost use Rattle.std.specs.Prelude.{◌≡◌, ◌<◌, Err, length, string_bytes};
ghost use Rattle.opid.specs.declared.refusal.Refusal.TheVariants.{TooLong};
ghost use Rattle.serde_json.specs.View.{view};
ghost use Rattle.wire_json.specs.Request.{room_asked_for, room_asked_for_in, room_in};
ghost use Rattle.operation_json.specs.Results.{Gives};

use operation_json::{check_keys, read_text, read_value};
use opid::{MAX_REQUEST_BYTES, Refusal};
use serde_json::Value;
use std::alloc::Global;

/// The name of the room that a message's bytes ask to open.
///
/// An opening is a JSON object with the keys `t`, whose value is the text `open`, and `room`, a text. Refused as a request
/// is. Takes time and memory in proportion to the bytes.
pub fn read_open(alloc: Global, bytes: &[u8]) -> Result<String, Refusal>
    ensures asked { Gives string_bytes result (room_asked_for bytes.now) }
    ensures too_long { MAX_REQUEST_BYTES < length bytes.now → result ≡ Err TooLong }
{
    if bytes.len() > MAX_REQUEST_BYTES {
        return Err(Refusal::TooLong);
    }
    let value = read_value(alloc, bytes)?;
    read_opening(alloc, &value)
}

fn read_opening(alloc: Global, value: &Value) -> Result<String, Refusal>
    ensures { Gives string_bytes result (room_asked_for_in (view value.now)) }
{
    match read_text(value, "t")? {
        "open" => read_room(alloc, value),
        _ => Err(Refusal::UnknownKind),
    }
}

fn read_room(alloc: Global, value: &Value) -> Result<String, Refusal>
    ensures { Gives string_bytes result (room_in (view value.now)) }
{
    check_keys(value, &["t", "room"])?;
    let room = read_text(value, "room")?;
    Ok(String::from_str(alloc, room)?)
}
