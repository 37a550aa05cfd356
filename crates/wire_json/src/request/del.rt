//! A deletion, by its keys and byte by byte.
ghost use Rattle.std.specs.Prelude.{◌≡◌, IfSome, codes};
ghost use Rattle.wire_json.specs.Request.{del_call};
ghost use Rattle.wire_json.specs.Internal.Flat.{fields_data};
ghost use Rattle.wire_json.specs.Internal.CallTokens.{ReadsRest};

use crate::request::fields::{Fields, next_field, next_place};
use json_bytes::PlainReader;
use operation_json::is_closed;
use opid::Refusal;
use room_model::Call;

pub(crate) fn read_del(fields: &Fields<'_>) -> Result<Call, Refusal>
    ensures { result ≡ del_call (fields_data fields.now) }
{
    fields.check_keys(&["t", "s", "n", "v", "k", "c"])?;
    let s = fields.number("s")?;
    let n = fields.number("n")?;
    let v = fields.number("v")?;
    let k = fields.number("k")?;
    let c = fields.number("c")?;
    Ok(Call::Del { s, n, v, k, c })
}

// What a deletion has behind its kind.
pub(crate) fn rest_of_del(reader: &mut PlainReader<'_>) -> Option<Call>
    ensures { IfSome result (λ call. ReadsRest (codes "del") reader.old call) }
{
    let (s, n, v, k) = next_place(reader)?;
    let c = next_field(reader, "c")?;
    if !is_closed(reader) {
        return None;
    }
    Some(Call::Del { s, n, v, k, c })
}
