//! Looks at the rooms of a hall that stand over logs.
ghost use Rattle.std.specs.Prelude.{◌≡◌, ◌<◌, [], length, IfOk};
ghost use Rattle.ws_server.specs.Halls.{rooms_of, IsHallPassOf};

use causal_clock::Op;
use opid::{OpKind, Refusal, Site};
use replica::Replica;
use std::alloc::Global;
use std::sync::Wait;
use std::test::Fail;
use ws_server::{Hall, HallPass};

// The replica of site 0 whose log puts in this text.
fn replica_of(alloc: Global, text: &str) -> Result<Replica, Refusal>
    ensures { IfOk result (λ r. r.held ≡ []) }
{
    let mut replica = Replica::new(alloc, Site::new(0)?);
    replica.submit_ins(0, 0, text)?;
    Ok(replica)
}

// A hall of two rooms, over the logs of these texts.
fn hall_over(alloc: Global, first: &str, second: &str) -> Result<(Hall, HallPass), Refusal>
    ensures { IfOk result (λ r. IsHallPassOf r.0 r.1) }
{
    let mut names = Vec::new(alloc);
    names.push(String::from_str(alloc, "first")?)?;
    names.push(String::from_str(alloc, "second")?)?;
    let mut replicas = Vec::new(alloc);
    replicas.push(replica_of(alloc, first)?)?;
    replicas.push(replica_of(alloc, second)?)?;
    Hall::over(alloc, &names, replicas)
}

// Whether the operations put in just these characters.
fn put_in(ops: &[Op], text: &str) -> bool {
    let mut left = text.chars();
    for op in ops {
        match op.kind() {
            OpKind::Ins { parent: _, ch } => {
                if left.next() != Some(ch) {
                    return false;
                }
            }
            OpKind::Del { target: _ } => return false,
        }
    }
    left.next().is_none()
}

// Whether a look from this operation on tells a log of so many operations, of which those put this in, and no call.
fn is_seen<R: Wait>(
    rt: &R,
    hall: &Hall,
    pass: &mut HallPass,
    at: usize,
    after: u32,
    version: u32,
    text: &str,
) -> bool
    requires pass { IsHallPassOf hall.now pass.old }
    requires within { at < length (rooms_of hall.now) }
    ensures { IsHallPassOf hall.now pass.new }
{
    match hall.look(rt, pass, at, after) {
        Ok(look) => {
            let mut all = put_in(look.ops.as_slice(), text);
            all &= look.version == version;
            all &= look.calls == 0;
            all &= look.sessions == 0;
            all
        }
        Err(_) => false,
    }
}

fn both_are_seen<R: Wait>(rt: &R, hall: &Hall, pass: &mut HallPass) -> bool
    requires { IsHallPassOf hall.now pass.old }
{
    hall.len() == 2
        && is_seen(rt, hall, pass, 0, 0, 5, "notes")
        && is_seen(rt, hall, pass, 1, 2, 6, "afts")
        && is_seen(rt, hall, pass, 0, 4, 5, "s")
        && is_seen(rt, hall, pass, 1, 7, 6, "")
}

#[test]
fn rooms_over_logs_are_looked_at(rt: HostRuntime) -> Result<(), Fail> {
    let (hall, mut pass) = hall_over(rt.alloc(), "notes", "drafts")?;
    assert!(rt; both_are_seen(&rt, &hall, &mut pass));
    Ok(())
}
