//! A call for a part of the log, by its keys and byte by byte.
ghost use Rattle.std.specs.Prelude.{◌≡◌, IfSome, codes};
ghost use Rattle.wire_json.specs.Request.{ops_call};
ghost use Rattle.wire_json.specs.Internal.Flat.{fields_data};
ghost use Rattle.wire_json.specs.Internal.CallTokens.{ReadsRest};

use crate::request::fields::{Fields, next_field};
use json_bytes::PlainReader;
use operation_json::is_closed;
use opid::Refusal;
use room_model::Call;

pub(crate) fn read_ops(fields: &Fields<'_>) -> Result<Call, Refusal>
    ensures { result ≡ ops_call (fields_data fields.now) }
{
    fields.check_keys(&["t", "after", "max"])?;
    let after = fields.number("after")?;
    let max = fields.number("max")?;
    Ok(Call::Ops { after, max })
}

// What a call for a part of the log has behind its kind.
pub(crate) fn rest_of_ops(reader: &mut PlainReader<'_>) -> Option<Call>
    ensures { IfSome result (λ call. ReadsRest (codes "ops") reader.old call) }
{
    let after = next_field(reader, "after")?;
    let max = next_field(reader, "max")?;
    if !is_closed(reader) {
        return None;
    }
    Some(Call::Ops { after, max })
}
