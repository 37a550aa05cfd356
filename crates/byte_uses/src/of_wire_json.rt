//! A request that a room answers.
ghost use Rattle.std.specs.Prelude.{◌≡◌, ◌<◌, ◌^◌, IfOk, Ok, string_bytes};
ghost use Rattle.room_model.specs.History.{mark};
ghost use Rattle.room_model.specs.Machine.{answer};
ghost use Rattle.room_model.specs.declared.call.Call.{Call};
ghost use Rattle.wire_json.specs.Request.{request};
ghost use Rattle.wire_json.specs.Text.{text};

use opid::Refusal;
use room::Room;
use std::alloc::Global;
use wire_json::{read_request, write_reply};

/// The text by which a room answers the text of a request. It is refused as the request is.
pub fn answered(alloc: Global, room: &mut Room, asked: &[u8]) -> Result<String, Refusal>
    requires { mark room.old.history < 2 ^ 62 }
    ensures { IfOk result (λ told. (call : Call) × (request asked.now ≡ Ok call)
        × (string_bytes told ≡ text (answer room.old.state call))) }
{
    let call = read_request(alloc, asked)?;
    let ticket = room.mark();
    let reply = room.call(ticket, call)?;
    write_reply(alloc, &reply)
}
