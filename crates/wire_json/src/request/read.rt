//! A read, by its keys and byte by byte.
ghost use Rattle.std.specs.Prelude.{◌≡◌, IfSome, codes};
ghost use Rattle.wire_json.specs.Request.{read_call};
ghost use Rattle.wire_json.specs.Internal.Flat.{fields_data};
ghost use Rattle.wire_json.specs.Internal.CallTokens.{ReadsRest};

use crate::request::fields::Fields;
use json_bytes::PlainReader;
use operation_json::is_closed;
use opid::Refusal;
use room_model::Call;

pub(crate) fn read_read(fields: &Fields<'_>) -> Result<Call, Refusal>
    ensures { result ≡ read_call (fields_data fields.now) }
{
    fields.check_keys(&["t"])?;
    Ok(Call::Read)
}

// What a read has behind its kind, which is nothing.
pub(crate) fn rest_of_read(reader: &mut PlainReader<'_>) -> Option<Call>
    ensures { IfSome result (λ call. ReadsRest (codes "read") reader.old call) }
{
    if !is_closed(reader) {
        return None;
    }
    Some(Call::Read)
}
