//! A count behind a lock.
ghost use Rattle.std.specs.Prelude.{[]};
ghost use Rattle.history_lock.specs.Locks.{IsPassOf, IsIdle};

use history_lock::{Pass, TicketLock, Trailed, Worn};
use std::sync::Wait;

/// How many turns were taken. It keeps no trail.
#[derive(Drop)]
pub struct Turns {
    pub count: u64,
}

impl Trailed for Turns {
    type Entry = u64;

    ghost trail = { λ _. [] };

    ghost mark = { λ _. 0 };
}

/// Takes a turn, and counts it: how many were taken before. Refused where the pass has no draw left.
pub fn take_turn<R: Wait>(
    rt: &R,
    lock: &TicketLock<Turns>,
    pass: &mut Pass<Turns>,
) -> Result<u64, Worn>
    requires { IsPassOf lock.now pass.old × IsIdle pass.old }
    ensures { IsPassOf lock.now pass.new × IsIdle pass.new }
{
    let ticket = lock.draw(pass)?;
    let mut hold = lock.enter(rt, ticket, pass);
    let before = hold.value.count;
    hold.value.count = before.wrapping_add(1);
    lock.leave(hold, pass);
    Ok(before)
}
