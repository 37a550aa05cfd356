//! A call of a room that threads share.
ghost use Rattle.shared_room.specs.Views.{IsPassOf};

use opid::Refusal;
use room::{Call, Reply};
use shared_room::{Pass, SharedRoom};
use std::sync::Wait;

/// What a session is told that joins a shared room, through a pass with one draw that this one gives away.
pub fn joined<R: Wait>(rt: &R, room: &SharedRoom, pass: &mut Pass) -> Result<Reply, Refusal>
    requires { IsPassOf room.now pass.old }
    ensures { IsPassOf room.now pass.new }
{
    let Ok(mut other) = room.split(pass, 1) else {
        return Err(Refusal::Worn);
    };
    let reply = room.call(rt, &mut other, Call::Join { units: false });
    room.join(pass, other);
    reply
}
