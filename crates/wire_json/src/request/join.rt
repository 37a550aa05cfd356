//! A join, by its keys and byte by byte, and how its places are counted.
ghost use Rattle.std.specs.Prelude.{◌≡◌, IfSome, codes};
ghost use Rattle.wire_json.specs.Request.{join_call, units_of_value};
ghost use Rattle.wire_json.specs.Internal.Flat.{fields_data};
ghost use Rattle.serde_json.specs.Find.{get};
ghost use Rattle.wire_json.specs.Internal.CallTokens.{ReadsRest};

use crate::request::fields::Fields;
use json_bytes::PlainReader;
use operation_json::is_closed;
use opid::Refusal;
use room_model::Call;

pub(crate) fn read_join(fields: &Fields<'_>) -> Result<Call, Refusal>
    ensures { result ≡ join_call (fields_data fields.now) }
{
    fields.check_keys(&["t", "u"])?;
    let units = counts_units(fields)?;
    Ok(Call::Join { units })
}

// Whether the places of a join count UTF-16 units.
fn counts_units(fields: &Fields<'_>) -> Result<bool, Refusal>
    ensures { result ≡ units_of_value (get (codes "u") (fields_data fields.now)) }
{
    if !fields.has("u") {
        return Ok(false);
    }
    match fields.number("u")? {
        16 => Ok(true),
        _ => Err(Refusal::BadField),
    }
}

// What a join has behind its kind: nothing, or how it counts.
pub(crate) fn rest_of_join(reader: &mut PlainReader<'_>) -> Option<Call>
    ensures { IfSome result (λ call. ReadsRest (codes "join") reader.old call) }
{
    if !reader.take_key("u") {
        return if is_closed(reader) {
            Some(Call::Join { units: false })
        } else {
            None
        };
    }
    let width = reader.next_number()?;
    if width != 16 || !is_closed(reader) {
        return None;
    }
    Some(Call::Join { units: true })
}
