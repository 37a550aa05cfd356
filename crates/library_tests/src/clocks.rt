//! The worked cases of clocks, operations and logs, and a random log beside a plain list.
ghost use Rattle.std.specs.Prelude.{◌≡◌, ◌<◌, length};

use crate::dice::Dice;
use crate::lending::lend;
use causal_clock::{Clock, Op, OpLog, Reads};
use opid::{OpKind, Refusal, Site, Stamp};
use std::alloc::Global;
use std::marker::Brand;
use std::sync::ledger::{Blank, Ledger};
use std::test::Fail;

fn site(number: u8) -> Result<Site, Refusal> {
    Site::new(number)
}

// Whether the pairs tell no clock.
fn tells_none(pairs: &[(Site, u32)]) -> bool {
    Clock::from_pairs(pairs).err() == Some(Refusal::BadClock)
}

fn tell_none(zero: Site, one: Site) -> bool {
    let mut all = tells_none(&[(one, 1), (zero, 1)]);
    all &= tells_none(&[(zero, 0)]);
    all &= tells_none(&[(zero, 131_072), (one, 1)]);
    all &= tells_none(&[(one, 1), (one, 1)]);
    all
}

#[test]
fn pairs_that_tell_no_clock(rt: HostRuntime) -> Result<(), Fail> {
    assert!(rt; tell_none(site(0)?, site(1)?));
    Ok(())
}

// Whether these pairs tell a clock of these counts of the first and the last site.
fn tells(pairs: &[(Site, u32)], counts: (u32, u32)) -> Result<bool, Refusal> {
    let clock = Clock::from_pairs(pairs)?;
    let (first, last) = (clock.entry(site(0)?), clock.entry(site(31)?));
    Ok((first, last) == counts && clock.sum() == first.saturating_add(last))
}

// The clock with one more of the site, where there may be more.
fn raised(clock: Clock, site: Site) -> Result<Clock, Refusal> {
    if clock.sum() >= 131_072 {
        return Err(Refusal::Full);
    }
    Ok(clock.raised(site))
}

fn tell_clocks(zero: Site, last: Site) -> Result<bool, Refusal> {
    let mut all = tells(&[(zero, 131_072)], (131_072, 0))?;
    all &= tells(&[(zero, 1), (last, 2)], (1, 2))?;
    all &= Clock::from_pairs(&[])? == Clock::zero();
    let two = Clock::from_pairs(&[(zero, 1), (last, 2)])?;
    all &= raised(two, last)? == Clock::from_pairs(&[(zero, 1), (last, 3)])?;
    Ok(all)
}

#[test]
fn pairs_that_tell_a_clock(rt: HostRuntime) -> Result<(), Fail> {
    assert!(rt; tell_clocks(site(0)?, site(31)?)?);
    Ok(())
}

// The insertion that a site makes next where a clock is known, where there may be more.
fn next(site: Site, known: &Clock) -> Result<Op, Refusal> {
    if known.sum() >= 131_072 {
        return Err(Refusal::Full);
    }
    Ok(Op::next(site, known, TYPED))
}

// Whether the second clock is the first one raised at the last site, and neither another one nor raised elsewhere.
fn is_raised_at_the_last(zero: Site, last: Site) -> Result<bool, Refusal> {
    let before = Clock::from_pairs(&[(zero, 1), (last, 2)])?;
    let after = Clock::from_pairs(&[(zero, 1), (last, 3)])?;
    let both = Clock::from_pairs(&[(zero, 2), (last, 3)])?;
    let mut all = before.is_raised(last, &after) && after.is_raised(zero, &both);
    all &= !before.is_raised(zero, &after) && !before.is_raised(last, &before);
    all &= !before.is_raised(last, &both) && !after.is_raised(last, &before);
    let op = typed(last, after)?;
    Ok(all && *op.known() == after && before.is_raised(last, op.known()))
}

#[test]
fn a_clock_is_raised_at_one_site(rt: HostRuntime) -> Result<(), Fail> {
    assert!(rt; is_raised_at_the_last(site(0)?, site(31)?)?);
    Ok(())
}

// The first operation of site 0, and that of site 1 which knows of it.
fn become_ready_in_turn(zero: Site, one: Site) -> Result<bool, Refusal> {
    let empty = Clock::zero();
    let first = typed(zero, Clock::from_pairs(&[(zero, 1)])?)?;
    let second = typed(one, Clock::from_pairs(&[(zero, 1), (one, 1)])?)?;
    let mut all = typed(zero, empty).err() == Some(Refusal::BadClock);
    all &= empty.ready(&first) && !empty.ready(&second);
    all &= first.clock().ready(&second) && !first.clock().ready(&first);
    all &= second.stamp().sum == 2 && second.number() == (one, 1);
    all &= next(one, first.known())? == second && *second.known() == second.clock();
    all &= first == first && first != second;
    Ok(all && first.kind() == TYPED && second.site() == one)
}

#[test]
fn an_operation_is_ready_after_its_past(rt: HostRuntime) -> Result<(), Fail> {
    assert!(rt; become_ready_in_turn(site(0)?, site(1)?)?);
    Ok(())
}

// Whether an operation of site 1 is printed for debugging as a derived `Debug` prints its fields: site, clock and kind.
fn is_printed_in_order(alloc: Global) -> Result<bool, Refusal> {
    let one = site(1)?;
    let op = typed(one, Clock::from_pairs(&[(one, 1)])?)?;
    let text = format!(in alloc; "{op:?}")?;
    let zeros =
        "0, 0, 0, 0, 0, 0, 0, 0, 0, 0, 0, 0, 0, 0, 0, 0, 0, 0, 0, 0, 0, 0, 0, 0, 0, 0, 0, 0, 0, 0";
    let wanted = format!(in alloc;
        "Op {{ site: Site {{ number: 1 }}, clock: Clock {{ counts: [0, 1, {zeros}], total: 1 }}, kind: Ins {{ parent: None, ch: 'a' }} }}"
    )?;
    Ok(text == wanted)
}

#[test]
fn an_operation_is_printed_by_its_fields(rt: HostRuntime) -> Result<(), Fail> {
    assert!(rt; is_printed_in_order(rt.alloc())?);
    Ok(())
}

// The insertion of a character at the head.
const TYPED: OpKind = OpKind::Ins {
    parent: None,
    ch: 'a',
};

// The operation of the site that inserts at the head, with this clock.
fn typed(site: Site, clock: Clock) -> Result<Op, Refusal> {
    Op::new(site, clock, TYPED)
}

// Whether the log stores as many entries as the first and the last of 128 operations of a site, and their 64ths, tell.
fn stores_190(log: &mut OpLog) -> Result<bool, Refusal> {
    let zero = site(0)?;
    for n in 1..129u32 {
        log.push(typed(zero, Clock::from_pairs(&[(zero, n)])?)?)?;
    }
    Ok(log.len() == 128 && log.stored() == 190)
}

#[test]
fn one_site_types_128_characters(rt: HostRuntime) -> Result<(), Fail> {
    assert!(rt; lend(OpLog::new(rt.alloc()), stores_190)?);
    Ok(())
}

// Four operations, the last of which knows less of site 0 than the one of its site before it.
fn falling() -> Result<[Op; 4], Refusal> {
    let (zero, one, two) = (site(0)?, site(1)?, site(2)?);
    Ok([
        typed(zero, Clock::from_pairs(&[(zero, 1)])?)?,
        typed(two, Clock::from_pairs(&[(two, 1)])?)?,
        typed(one, Clock::from_pairs(&[(zero, 1), (one, 1)])?)?,
        typed(one, Clock::from_pairs(&[(one, 2), (two, 1)])?)?,
    ])
}

fn keeps_each(log: &mut OpLog, ops: &[Op]) -> Result<bool, Refusal> {
    for op in ops {
        log.push(*op)?;
    }
    Ok(is_log_of(log, ops))
}

fn stores_what_fell(log: &mut OpLog) -> Result<bool, Refusal> {
    Ok(keeps_each(log, &falling()?)? && log.stored() == 7)
}

#[test]
fn an_entry_that_fell_is_stored(rt: HostRuntime) -> Result<(), Fail> {
    assert!(rt; lend(OpLog::new(rt.alloc()), stores_what_fell)?);
    Ok(())
}

// The operation at the place, where nobody counts the steps.
fn get_at<L: Ledger>(log: &OpLog, place: usize, blank: Blank) -> Op
    requires place { place < length log.now.ops }
    requires name { blank.name ≡ L.name }
    requires parts { blank.parts ≡ L.parts }
    requires some { 0 < L.parts }
{
    log.get(place, &mut Reads::<L>::new(blank))
}

// Whether the log has these operations: each by its place, and all that follow in order.
fn is_log_of(log: &OpLog, ops: &[Op]) -> bool {
    if log.len() != ops.len() {
        return false;
    }
    for (place, op) in ops.iter().enumerate() {
        if place >= log.len() || get_at::<Brand>(log, place, Blank::new(1)) != *op {
            return false;
        }
    }
    let mut all = true;
    for place in 0..ops.len() {
        all &= place > 64 && place % 97 > 0 || is_rest(log, place, &ops[place..]);
    }
    all
}

// Whether these are the log's operations from the place on.
fn is_rest(log: &OpLog, place: usize, ops: &[Op]) -> bool {
    if place > log.len() {
        return false;
    }
    let mut rest = log.replay_from(place);
    for op in ops {
        if rest.next() != Some(*op) {
            return false;
        }
    }
    rest.next().is_none()
}

// A clock that counts one of a site, and at most ten more of five sites.
fn any_clock(own: Site, dice: &mut Dice) -> Result<Clock, Refusal> {
    let mut clock = raised(Clock::zero(), own)?;
    for _ in 0..dice.roll(11) {
        clock = raised(clock, site(dice.roll(5) as u8)?)?;
    }
    Ok(clock)
}

// An operation of one of five sites, whose clock has nothing to do with those before it.
fn any_op(dice: &mut Dice) -> Result<Op, Refusal> {
    let own = site(dice.roll(5) as u8)?;
    let clock = any_clock(own, dice)?;
    let stamp = Stamp {
        sum: dice.roll(100_000) as u32,
        site: site(dice.roll(32) as u8)?,
    };
    let kind = match dice.roll(3) {
        0 => OpKind::Ins {
            parent: None,
            ch: 'b',
        },
        1 => OpKind::Ins {
            parent: Some(stamp),
            ch: 'c',
        },
        _ => OpKind::Del { target: stamp },
    };
    Op::new(own, clock, kind)
}

// Pushes 2,000 operations, and notes them.
fn push_many(log: &mut OpLog, noted: &mut Vec<Op>, dice: &mut Dice) -> Result<(), Refusal> {
    for k in 0..2_000usize {
        if k % 64 == 0 {
            log.reserve(64)?;
        }
        let op = any_op(dice)?;
        log.push(op)?;
        noted.push(op)?;
    }
    Ok(())
}

fn gives_back(log: &mut OpLog, noted: &mut Vec<Op>) -> Result<bool, Refusal> {
    push_many(log, noted, &mut Dice::new(7))?;
    Ok(log.len() == 2_000 && is_log_of(log, noted))
}

fn an_empty_one_gives_back(alloc: Global) -> Result<bool, Refusal> {
    gives_back(&mut OpLog::new(alloc), &mut Vec::new(alloc))
}

#[test]
fn a_log_gives_back_what_was_pushed(rt: HostRuntime) -> Result<(), Fail> {
    assert!(rt; an_empty_one_gives_back(rt.alloc())?);
    Ok(())
}
