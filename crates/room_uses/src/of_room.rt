//! A room that a session joins.
ghost use Rattle.std.specs.Prelude.{◌≡◌, ◌<◌, ◌^◌, IfOk, false};
ghost use Rattle.room_model.specs.History.{mark};
ghost use Rattle.room_model.specs.Machine.{answer};
ghost use Rattle.room_model.specs.declared.call.Call.TheVariants as calls;

use room::{Call, Reply, Room};
use std::alloc::AllocError;

/// What a session is told that joins a room, as its next call.
pub fn joined(room: &mut Room) -> Result<Reply, AllocError>
    requires { mark room.old.history < 2 ^ 62 }
    ensures { IfOk result (λ reply. reply ≡ answer room.old.state (calls.Join false)) }
{
    let ticket = room.mark();
    let call = Call::Join { units: false };
    room.call(ticket, call)
}
