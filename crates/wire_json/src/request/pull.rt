//! A pull, by its keys and byte by byte.
ghost use Rattle.std.specs.Prelude.{◌≡◌, IfSome, codes};
ghost use Rattle.wire_json.specs.Request.{pull_call};
ghost use Rattle.wire_json.specs.Internal.Flat.{fields_data};
ghost use Rattle.wire_json.specs.Internal.CallTokens.{ReadsRest};

use crate::request::fields::{Fields, next_field};
use json_bytes::PlainReader;
use operation_json::is_closed;
use opid::Refusal;
use room_model::Call;

pub(crate) fn read_pull(fields: &Fields<'_>) -> Result<Call, Refusal>
    ensures { result ≡ pull_call (fields_data fields.now) }
{
    fields.check_keys(&["t", "s", "have", "max"])?;
    let s = fields.number("s")?;
    let have = fields.number("have")?;
    let max = fields.number("max")?;
    Ok(Call::Pull { s, have, max })
}

// What a pull has behind its kind.
pub(crate) fn rest_of_pull(reader: &mut PlainReader<'_>) -> Option<Call>
    ensures { IfSome result (λ call. ReadsRest (codes "pull") reader.old call) }
{
    let s = next_field(reader, "s")?;
    let have = next_field(reader, "have")?;
    let max = next_field(reader, "max")?;
    if !is_closed(reader) {
        return None;
    }
    Some(Call::Pull { s, have, max })
}
