//! A leave, by its keys and byte by byte.
ghost use Rattle.std.specs.Prelude.{◌≡◌, IfSome, codes};
ghost use Rattle.wire_json.specs.Request.{leave_call};
ghost use Rattle.wire_json.specs.Internal.Flat.{fields_data};
ghost use Rattle.wire_json.specs.Internal.CallTokens.{ReadsRest};

use crate::request::fields::{Fields, next_field};
use json_bytes::PlainReader;
use operation_json::is_closed;
use opid::Refusal;
use room_model::Call;

pub(crate) fn read_leave(fields: &Fields<'_>) -> Result<Call, Refusal>
    ensures { result ≡ leave_call (fields_data fields.now) }
{
    fields.check_keys(&["t", "s"])?;
    let s = fields.number("s")?;
    Ok(Call::Leave { s })
}

// What a leave has behind its kind.
pub(crate) fn rest_of_leave(reader: &mut PlainReader<'_>) -> Option<Call>
    ensures { IfSome result (λ call. ReadsRest (codes "leave") reader.old call) }
{
    let s = next_field(reader, "s")?;
    if !is_closed(reader) {
        return None;
    }
    Some(Call::Leave { s })
}
