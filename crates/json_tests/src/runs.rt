//! Lists of operations, packed into runs as a reply tells them, and read back as a request hands them over.
ghost use Rattle.std.specs.Prelude.{◌<◌, ◌≤◌};

use causal_clock::{Clock, MAX_SUM, Op};
use opid::{OpKind, Refusal, Site, Stamp};
use room_model::{Call, Operations, Reply};
use std::alloc::Global;
use std::ops::Range;
use std::test::Fail;
use wire_json::{read_request, write_reply};

// The list of operations, packed, as a reply tells it.
fn packed(alloc: Global, ops: &[Op]) -> Result<String, Refusal> {
    let ops = Operations::new(ops.to_vec(alloc)?);
    let reply = write_reply(alloc, &Reply::Ops { from: 0, ops })?;
    let list = reply
        .as_str()
        .strip_prefix("{\"from\":0,\"ops\":")
        .and_then(|rest| rest.strip_suffix(",\"r\":\"ops\"}"));
    match list {
        Some(list) => Ok(String::from_str(alloc, list)?),
        None => Err(Refusal::BadJson),
    }
}

// The operations that a list tells, as a request hands them over.
fn ops_of(alloc: Global, list: &str) -> Result<Vec<Op>, Refusal> {
    let request = format!(in alloc; "{{\"ops\":{list},\"t\":\"put\"}}")?;
    match read_request(alloc, request.as_bytes())? {
        Call::Put(ops) => Ok(ops.into_vec()),
        _ => Err(Refusal::UnknownKind),
    }
}

// Whether operations are those that their packed text tells.
fn are_read_back(alloc: Global, ops: &[Op]) -> Result<bool, Refusal> {
    let text = packed(alloc, ops)?;
    let read = ops_of(alloc, text.as_str())?;
    Ok(read.as_slice() == ops)
}

// The clock that counts one operation more of the site.
fn raised(clock: &Clock, site: Site) -> Result<Clock, Refusal> {
    if clock.sum() >= MAX_SUM {
        return Err(Refusal::Full);
    }
    Ok(clock.raised(site))
}

// How many elements the operations put in, of which five stand before the last of six.
fn elements(ops: &[Op]) -> usize
    ensures { result ≤ 5 }
{
    let mut count: usize = 0;
    for op in ops {
        if matches!(op.kind(), OpKind::Ins { .. }) {
            count = count.wrapping_add(1);
        }
    }
    count.min(5)
}

// The element that was put in after so many.
fn element(ops: &[Op], before: usize) -> Option<Stamp> {
    let mut left = before;
    for op in ops {
        if matches!(op.kind(), OpKind::Ins { .. }) {
            if left == 0 {
                return Some(op.stamp());
            }
            left -= 1;
        }
    }
    None
}

// One of all insertions and deletions over the elements of these operations: 0 is an insertion at the head, then come those behind
// an element, and then the deletions.
fn kind_of(what: usize, ops: &[Op], ch: char) -> OpKind {
    let parents = elements(ops) + 1;
    if what >= parents {
        if let Some(target) = element(ops, what - parents) {
            return OpKind::Del { target };
        }
    }
    let parent = match what.checked_sub(1) {
        Some(before) => element(ops, before),
        None => None,
    };
    OpKind::Ins { parent, ch }
}

// One of all insertions of an a or a b and deletions over these: first come the insertions, an a and a b of each.
fn lettered(what: usize, ops: &[Op]) -> OpKind {
    let parents = elements(ops) + 1;
    if what >= parents + parents {
        return kind_of(what - parents, ops, 'a');
    }
    kind_of(what / 2, ops, if what % 2 == 0 { 'a' } else { 'b' })
}

// In what the operations of logs differ besides their sites and kinds.
#[derive(Clone, Copy, PartialEq, Eq)]
enum Also {
    // Each puts in an a or a b, and knows all before it.
    Letters,
    // Each puts in an a, and knows all before it, or only those of its own site and what these know.
    Knowledge,
}

// The lowest digit of a number, over so many digits, which is taken off it.
fn take_digit(left: &mut usize, digits: usize) -> usize
    requires { 0 < digits }
    ensures { result < digits }
{
    let digit = *left % digits;
    *left /= digits;
    digit
}

// The log that a number's digits tell. Each says whose the next operation is, in what else it differs, and which it is of all
// insertions and deletions over the elements so far, whether it knows them or not.
fn log_of(alloc: Global, number: usize, length: usize, also: Also) -> Result<Vec<Op>, Refusal> {
    let mut ops: Vec<Op> = Vec::new(alloc);
    let mut all = Clock::zero();
    let mut own = [Clock::zero(); 2];
    let mut left = number;
    for _ in 0..length {
        let place = take_digit(&mut left, 2);
        let is_apart = also == Also::Knowledge && take_digit(&mut left, 2) == 1;
        let named = elements(ops.as_slice());
        let kind = if also == Also::Letters {
            lettered(
                take_digit(&mut left, named + named + named + 2),
                ops.as_slice(),
            )
        } else {
            kind_of(
                take_digit(&mut left, named + named + 1),
                ops.as_slice(),
                'a',
            )
        };
        let site = Site::new(place as u8)?;
        let known = if is_apart { own[place] } else { all };
        let clock = raised(&known, site)?;
        ops.push(Op::new(site, clock, kind)?)?;
        own[place] = clock;
        all = raised(&all, site)?;
    }
    Ok(ops)
}

// Whether each of so many logs of a length is read back, from the one with this number on. The first operation is site 0's
// insertion of an a: the other site and letter have the same logs, and it has nothing to know.
fn are_all_read_back(
    alloc: Global,
    length: usize,
    also: Also,
    numbers: Range<u32>,
) -> Result<bool, Refusal> {
    let mut all = true;
    for number in numbers {
        let ops = log_of(alloc, 4 * number as usize, length, also)?;
        all &= are_read_back(alloc, ops.as_slice())?;
    }
    Ok(all)
}

// Up to five operations with two letters.
#[test]
fn every_short_log_is_read_back(rt: HostRuntime) -> Result<(), Fail> {
    let mut all = true;
    for (length, logs) in [
        (1, 1),
        (2, 10),
        (3, 10 * 16),
        (4, 10 * 16 * 22),
        (5, 10 * 16 * 22 * 28),
    ] {
        all &= are_all_read_back(rt.alloc(), length, Also::Letters, 0..logs)?;
    }
    assert!(rt; all);
    Ok(())
}

// Up to five operations with one letter, where an operation may not know those of the other site before it.
#[test]
fn every_short_log_of_sites_apart_is_read_back(rt: HostRuntime) -> Result<(), Fail> {
    let mut all = true;
    for (length, logs) in [
        (1, 1),
        (2, 4 * 3),
        (3, 4 * 3 * 4 * 5),
        (4, 4 * 3 * 4 * 5 * 4 * 7),
        (5, 4 * 3 * 4 * 5 * 4 * 7 * 4 * 9),
    ] {
        all &= are_all_read_back(rt.alloc(), length, Also::Knowledge, 0..logs)?;
    }
    assert!(rt; all);
    Ok(())
}

// Six operations with two letters, in eight parts, as a test has its time.
fn logs_of_six_are_read_back(alloc: Global, part: u32) -> Result<bool, Refusal>
    requires { part < 8 }
{
    let logs = 10 * 16 * 22 * 28 * 34 / 8;
    are_all_read_back(alloc, 6, Also::Letters, part * logs..part * logs + logs)
}

#[test]
fn every_log_of_six_first(rt: HostRuntime) -> Result<(), Fail> {
    assert!(rt; logs_of_six_are_read_back(rt.alloc(), 0)?);
    Ok(())
}

#[test]
fn every_log_of_six_second(rt: HostRuntime) -> Result<(), Fail> {
    assert!(rt; logs_of_six_are_read_back(rt.alloc(), 1)?);
    Ok(())
}

#[test]
fn every_log_of_six_third(rt: HostRuntime) -> Result<(), Fail> {
    assert!(rt; logs_of_six_are_read_back(rt.alloc(), 2)?);
    Ok(())
}

#[test]
fn every_log_of_six_fourth(rt: HostRuntime) -> Result<(), Fail> {
    assert!(rt; logs_of_six_are_read_back(rt.alloc(), 3)?);
    Ok(())
}

#[test]
fn every_log_of_six_fifth(rt: HostRuntime) -> Result<(), Fail> {
    assert!(rt; logs_of_six_are_read_back(rt.alloc(), 4)?);
    Ok(())
}

#[test]
fn every_log_of_six_sixth(rt: HostRuntime) -> Result<(), Fail> {
    assert!(rt; logs_of_six_are_read_back(rt.alloc(), 5)?);
    Ok(())
}

#[test]
fn every_log_of_six_seventh(rt: HostRuntime) -> Result<(), Fail> {
    assert!(rt; logs_of_six_are_read_back(rt.alloc(), 6)?);
    Ok(())
}

#[test]
fn every_log_of_six_eighth(rt: HostRuntime) -> Result<(), Fail> {
    assert!(rt; logs_of_six_are_read_back(rt.alloc(), 7)?);
    Ok(())
}
