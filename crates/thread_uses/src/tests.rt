//! What each use answers, by the definitions.
ghost use Rattle.std.specs.Prelude.{IfOk};
ghost use Rattle.history_lock.specs.Locks.{IsPassOf, IsIdle};
ghost use Rattle.shared_room.specs.Views as views;

use crate::of_history_lock::Turns;
use crate::*;
use history_lock::{Pass, TicketLock};
use opid::{Refusal, Site};
use room::{Reply, Room};
use shared_room::SharedRoom;
use std::alloc::Global;
use std::sync::Wait;
use std::test::Fail;
use versions::Doc;
use ws_server::{Gate, Hall};

fn takes_two<R: Wait>(rt: &R, lock: &TicketLock<Turns>, pass: &mut Pass<Turns>) -> bool
    requires { IsPassOf lock.now pass.old × IsIdle pass.old }
{
    let first = of_history_lock::take_turn(rt, lock, pass).ok();
    first == Some(0) && of_history_lock::take_turn(rt, lock, pass).ok() == Some(1)
}

#[test]
fn turns_are_counted(rt: HostRuntime) -> Result<(), Fail> {
    let (lock, mut pass) = TicketLock::new(rt.alloc(), Turns { count: 0 })?;
    assert!(rt; takes_two(&rt, &lock, &mut pass));
    Ok(())
}

fn shared(alloc: Global) -> Result<(SharedRoom, shared_room::Pass), Fail>
    ensures { IfOk result (λ r. views.IsPassOf r.0 r.1) }
{
    Ok(SharedRoom::new(alloc, Room::new(alloc, Site::new(0)?))?)
}

#[test]
fn a_session_joins(rt: HostRuntime) -> Result<(), Fail> {
    let (room, mut pass) = shared(rt.alloc())?;
    let told = of_shared_room::joined(&rt, &room, &mut pass)?;
    assert!(rt; matches!(&told, Reply::Joined { s: 1, v: 0, .. }));
    Ok(())
}

#[test]
fn lines_are_answered(rt: HostRuntime) -> Result<(), Fail> {
    let (room, mut pass) = shared(rt.alloc())?;
    let told = of_shared_lines::answers_of(
        &rt,
        rt.alloc(),
        &room,
        &mut pass,
        b"{\"t\":\"read\"}\n",
    );
    assert!(rt;
        matches!(&told, Ok(told) if told.as_slice() == b"{\"r\":\"text\",\"v\":0,\"x\":\"\"}\n".as_slice())
    );
    Ok(())
}

// A gate that lets everything pass.
#[derive(Drop)]
struct Free;

impl Gate for Free {
    ghost told_before = { λ _ _ _. Unit {0} };

    ghost told_after = { λ _ _ _. Unit {0} };

    fn before(&mut self, _n: u64) {}

    fn after(&mut self, _n: u64) {}
}

#[test]
fn a_message_is_answered(rt: HostRuntime) -> Result<(), Fail> {
    let names = [String::from_str(rt.alloc(), "a")?];
    let (hall, mut pass) = Hall::new(rt.alloc(), Site::new(0)?, &names)?;
    let open = b"{\"room\":\"a\",\"t\":\"open\"}".as_slice();
    let read = b"{\"t\":\"read\"}".as_slice();
    let told = of_ws_server::answer_of(&rt, rt.alloc(), &hall, &mut pass, open, read, &mut Free);
    assert!(rt;
        matches!(&told, Ok(told) if told.as_str() == "{\"r\":\"text\",\"v\":0,\"x\":\"\"}")
    );
    Ok(())
}

#[test]
fn a_hall_is_opened(rt: HostRuntime) -> Result<(), Fail> {
    let site = Site::new(0)?;
    let (hall, _pass) = of_kept_rooms::hall_over(rt.alloc(), "a", Doc::new(rt.alloc()), site)?;
    assert!(rt; hall.len() == 1);
    let refused = of_kept_rooms::hall_over(rt.alloc(), "", Doc::new(rt.alloc()), site);
    assert!(rt; refused.err() == Some(Refusal::BadField));
    Ok(())
}
