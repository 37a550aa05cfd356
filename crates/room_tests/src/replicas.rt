//! Deliveries at a replica, against worked values.
use crate::operations::{are_two, at_head, behind, of_an_empty_replica, operation, stamp};
use causal_clock::Op;
use opid::{OpKind, Refusal};
use replica::{Delivery, Replica};
use std::alloc::Global;
use std::test::Fail;

// Whether the newest version reads so.
fn reads(replica: &Replica, text: &str) -> Result<bool, Refusal> {
    Ok(replica.doc().reading(replica.version())?.as_str() == text)
}

// Whether the log ends with these operations, from the place on.
fn tells(replica: &Replica, after: u32, first: Op, second: Op) -> Result<bool, Refusal> {
    Ok(are_two(&replica.ops(after, 64)?, first, second))
}

// What comes before its past waits, within what was reserved, and is taken with it; and so is what is lent.
fn delivers(_alloc: Global, replica: &mut Replica) -> Result<bool, Refusal> {
    let first = operation(1, 0, 1, at_head('a'))?;
    let second = operation(1, 0, 2, behind(stamp(1, 1)?, 'b'))?;
    replica.reserve(2)?;
    let mut all = replica.put(second)? == Delivery::Kept;
    all &= replica.held() == 1;
    let both = Delivery::Took {
        taken: 2,
        dropped: 0,
    };
    all &= replica.put(first)? == both;
    all &= replica.put(second)? == Delivery::Again;
    all &= replica.put(operation(1, 0, 1, at_head('z'))?).err() == Some(Refusal::Conflict);
    all &= replica.held() == 0;
    all &= tells(replica, 0, first, second)? && reads(replica, "ab")?;
    replica.reserve(1)?;
    let third = operation(1, 0, 3, behind(stamp(2, 1)?, 'c'))?;
    let one = Delivery::Took {
        taken: 1,
        dropped: 0,
    };
    all &= replica.put_copy(&third)? == one && replica.put_copy(&third)? == Delivery::Again;
    Ok(all && tells(replica, 1, second, third)? && reads(replica, "abc")?)
}

#[test]
fn deliveries(rt: HostRuntime) -> Result<(), Fail> {
    assert!(rt; of_an_empty_replica(rt.alloc(), delivers)?);
    Ok(())
}

// How operations are delivered: with memory reserved before or not, and by themselves or as copies.
#[derive(Clone, Copy)]
struct Way {
    reserves: bool,
    copies: bool,
}

// Whether the delivery of the operation ends so.
fn ends(
    replica: &mut Replica,
    way: Way,
    op: Op,
    want: Result<Delivery, Refusal>,
) -> Result<bool, Refusal> {
    if way.reserves {
        replica.reserve(replica.held().saturating_add(1))?;
    }
    let end = if way.copies {
        replica.put_copy(&op)
    } else {
        replica.put(op)
    };
    Ok(end == want)
}

// So many are taken, and so many dropped.
fn took(taken: u32, dropped: u32) -> Result<Delivery, Refusal> {
    Ok(Delivery::Took { taken, dropped })
}

// The operation number `n` of site 1: each odd one puts a letter in behind the one put in before, and each even one deletes it.
fn put_in_or_deleted(n: u32) -> Result<Op, Refusal> {
    if n % 2 == 0 {
        let target = stamp(n.saturating_sub(1), 1)?;
        return operation(1, 0, n, OpKind::Del { target });
    }
    let kind = if n == 1 {
        at_head('a')
    } else {
        behind(stamp(n.saturating_sub(2), 1)?, 'a')
    };
    operation(1, 0, n, kind)
}

// Two of these, the later one first, which waits; then both again.
fn delivers_a_pair(replica: &mut Replica, way: Way, n: u32) -> Result<bool, Refusal> {
    let first = put_in_or_deleted(n)?;
    let second = put_in_or_deleted(n.saturating_add(1))?;
    let mut all = ends(replica, way, second, Ok(Delivery::Kept))?;
    all &= ends(replica, way, second, Ok(Delivery::Again))?;
    all &= ends(replica, way, first, took(2, 0))?;
    all &= ends(replica, way, first, Ok(Delivery::Again))?;
    Ok(all & ends(replica, way, second, Ok(Delivery::Again))?)
}

// 200 of them, with nothing read at last.
fn delivers_pairs(replica: &mut Replica, way: Way) -> Result<bool, Refusal> {
    let mut all = true;
    for pair in 0..100u32 {
        all &= delivers_a_pair(replica, way, 2 * pair + 1)?;
    }
    Ok(all && replica.version() == 200 && reads(replica, "")?)
}

// The letter number `n` of site 2, at the beginning.
fn letter(n: u32) -> Result<Op, Refusal> {
    operation(2, 0, n, at_head('b'))
}

// As many as may wait for one, and one more; then that one comes. The one more comes behind them.
fn delivers_what_waits(replica: &mut Replica, way: Way) -> Result<bool, Refusal> {
    let mut all = true;
    for n in 2..1026 {
        all &= ends(replica, way, letter(n)?, Ok(Delivery::Kept))?;
    }
    all &= ends(replica, way, letter(1026)?, Err(Refusal::HoldFull))?;
    all &= replica.held() == 1024;
    all &= ends(replica, way, letter(1)?, took(1025, 0))?;
    all &= ends(replica, way, letter(1026)?, took(1, 0))?;
    Ok(all && replica.held() == 0 && replica.version() == 1226)
}

// What is wrong by itself: an operation of the replica's own site that it never made, another one with a known number, one whose
// sum isn't above that of its site's last one, and those behind what isn't there, or isn't older.
fn refuses(replica: &mut Replica, way: Way) -> Result<bool, Refusal> {
    let own = operation(0, 0, 1, at_head('z'))?;
    let mut all = ends(replica, way, own, Err(Refusal::OwnSite))?;
    let other = operation(1, 0, 200, at_head('z'))?;
    all &= ends(replica, way, other, Err(Refusal::Conflict))?;
    let unknown = operation(3, 0, 1, behind(stamp(9, 9)?, 'z'))?;
    all &= ends(replica, way, unknown, Err(Refusal::UnknownElement))?;
    let younger = operation(3, 0, 1, behind(stamp(3, 1)?, 'z'))?;
    all &= ends(replica, way, younger, Err(Refusal::NotOlder))?;
    Ok(all)
}

// Site 3 knows three of site 0 at its first operation, and none at its second. Its third stands behind what isn't
// there: it waits for the second, and is dropped then.
fn refuses_what_is_not_rising(replica: &mut Replica, way: Way) -> Result<bool, Refusal> {
    let mut all = replica.submit_ins(replica.version(), 0, "xyz")? == (1226, 1229);
    all &= ends(replica, way, operation(3, 3, 1, at_head('c'))?, took(1, 0))?;
    let lower = operation(3, 0, 2, at_head('z'))?;
    all &= ends(replica, way, lower, Err(Refusal::NotRising))?;
    let late = operation(3, 3, 3, behind(stamp(9, 9)?, 'z'))?;
    all &= ends(replica, way, late, Ok(Delivery::Kept))?;
    all &= ends(replica, way, operation(3, 3, 2, at_head('d'))?, took(1, 1))?;
    Ok(all && replica.held() == 0 && replica.version() == 1231)
}

// Each outcome.
fn delivers_all(replica: &mut Replica, way: Way) -> Result<bool, Refusal> {
    let mut all = delivers_pairs(replica, way)?;
    all &= delivers_what_waits(replica, way)?;
    all &= refuses(replica, way)?;
    Ok(all && refuses_what_is_not_rising(replica, way)?)
}

// Each outcome, in a way, at a replica of its own.
fn delivers_all_anew(alloc: Global, reserves: bool, copies: bool) -> Result<bool, Refusal> {
    let way = Way { reserves, copies };
    of_an_empty_replica(alloc, |_, replica| delivers_all(replica, way))
}

#[test]
fn deliveries_with_a_reserve_and_without(rt: HostRuntime) -> Result<(), Fail> {
    for (reserves, copies) in [(false, false), (false, true), (true, false), (true, true)] {
        assert!(rt; delivers_all_anew(rt.alloc(), reserves, copies)?);
    }
    Ok(())
}
