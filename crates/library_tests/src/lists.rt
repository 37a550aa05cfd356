//! The worked cases of the list, and a long run beside the plain program of the definitions.
ghost use Rattle.std.specs.Prelude.{◌<◌, ◌≤◌, IfSome, IfOk, length};
ghost use Rattle.rga_list.specs.Entries.{IsAboveItsSite};

use crate::dice::Dice;
use crate::lending::lend;
use crate::plain::{Insertion, Plain};
use opid::{OpKind, Refusal, Site, Stamp};
use rga_list::{Elem, Place, Rga};
use std::alloc::{AllocError, Global};
use std::test::Fail;

fn stamp(sum: u32, site: u8) -> Result<Stamp, Refusal> {
    Ok(Stamp {
        sum,
        site: Site::new(site)?,
    })
}

// A stamp of the site that may be inserted, from this sum on.
fn fresh(rga: &Rga, least: u32, site: Site) -> Option<Stamp>
    ensures { IfSome result (λ s. IsAboveItsSite rga.now.entries s) }
{
    match rga.last_of(site) {
        None => Some(Stamp { sum: least, site }),
        Some(last) => {
            if last.sum < least {
                Some(Stamp { sum: least, site })
            } else {
                let sum = last.sum.checked_add(1)?;
                Some(Stamp { sum, site })
            }
        }
    }
}

// Inserts with this stamp, or the site's next one.
fn insert(
    rga: &mut Rga,
    sum: u32,
    site: u8,
    parent: Option<Stamp>,
    ch: char,
) -> Result<Place, Refusal> {
    match fresh(rga, sum, Site::new(site)?) {
        None => Err(Refusal::NotRising),
        Some(stamp) => rga.integrate_ins(stamp, parent, ch),
    }
}

// Whether the list has these characters, each of which is shown or not.
fn lists(rga: &Rga, characters: &[(char, bool)]) -> bool {
    let mut at = None;
    for want in characters {
        match rga.next(at) {
            None => return false,
            Some(elem) => {
                let (_, ch, shown) = rga.get(elem);
                if (ch, shown) != *want {
                    return false;
                }
                at = Some(elem);
            }
        }
    }
    rga.next(at).is_none()
}

// Whether the list is these elements of the plain program.
fn is_same(rga: &Rga, plain: &Plain, order: &[Insertion]) -> bool {
    let mut at = None;
    for x in order {
        match rga.next(at) {
            None => return false,
            Some(elem) => {
                let (stamp, ch, shown) = rga.get(elem);
                if elem as usize != x.arrival
                    || ch != x.ch
                    || shown != plain.is_shown(x)
                    || stamp != x.stamp
                {
                    return false;
                }
                at = Some(elem);
            }
        }
    }
    rga.next(at).is_none() && rga.len() == order.len()
}

// The text of the worked list, all of which is shown.
const XZWY: [(char, bool); 4] = [('x', true), ('z', true), ('w', true), ('y', true)];

// `x`, and behind it first `y` and then the run `zw` of another site.
fn takes_the_run_last(rga: &mut Rga) -> Result<bool, Refusal> {
    let (x, z) = (stamp(1, 0)?, stamp(2, 1)?);
    insert(rga, 1, 0, None, 'x')?;
    insert(rga, 2, 0, Some(x), 'y')?;
    insert(rga, 2, 1, Some(x), 'z')?;
    insert(rga, 3, 1, Some(z), 'w')?;
    Ok(lists(rga, &XZWY))
}

// The same, where `y` arrives last.
fn takes_the_run_first(rga: &mut Rga) -> Result<bool, Refusal> {
    let (x, z) = (stamp(1, 0)?, stamp(2, 1)?);
    insert(rga, 1, 0, None, 'x')?;
    insert(rga, 2, 1, Some(x), 'z')?;
    insert(rga, 3, 1, Some(z), 'w')?;
    let last = insert(rga, 2, 0, Some(x), 'y')?;
    let mut all = last.elem == 3 && last.before == Some(2);
    all &= rga.next(Some(2)) == Some(3);
    all &= rga.next(Some(3)).is_none() && rga.next(Some(4)).is_none();
    Ok(all && lists(rga, &XZWY))
}

#[test]
fn either_order_of_arrival_gives_one_list(rt: HostRuntime) -> Result<(), Fail> {
    assert!(rt; lend(Rga::new(rt.alloc()), takes_the_run_last)?);
    assert!(rt; lend(Rga::new(rt.alloc()), takes_the_run_first)?);
    Ok(())
}

// Whether the insertion of `b` as (2,1) behind this element is refused so.
fn refuses_behind(rga: &mut Rga, parent: Stamp, why: Refusal) -> bool {
    insert(rga, 2, 1, Some(parent), 'b').err() == Some(why)
}

// In a list of one element, which is deleted twice.
fn deletes_the_only_one(rga: &mut Rga) -> Result<bool, Refusal> {
    let (only, unknown) = (stamp(3, 0)?, stamp(9, 0)?);
    let mut all = rga.last_of(only.site).is_none();
    let first = insert(rga, 3, 0, None, 'a')?;
    all &= first.elem == 0 && first.before.is_none();
    all &= refuses_behind(rga, only, Refusal::NotOlder);
    all &= refuses_behind(rga, unknown, Refusal::UnknownElement);
    all &= rga.integrate_del(only)? && !rga.integrate_del(only)?;
    all &= rga.integrate_del(unknown).err() == Some(Refusal::UnknownElement);
    all &= rga.elem_of(only) == Some(0) && rga.elem_of(unknown).is_none();
    all &= rga.last_of(only.site) == Some(only);
    all &= rga.len() == 1 && rga.next(None) == Some(0);
    Ok(all && lists(rga, &[('a', false)]))
}

#[test]
fn refused_and_deleted(rt: HostRuntime) -> Result<(), Fail> {
    assert!(rt; lend(Rga::new(rt.alloc()), deletes_the_only_one)?);
    Ok(())
}

// What stands at the first places.
fn picture(rga: &Rga) -> [(Elem, u32, char, bool); 16] {
    let mut places = [(0, 0, ' ', false); 16];
    let mut at = None;
    for place in places.iter_mut() {
        match rga.next(at) {
            None => {}
            Some(elem) => {
                let (stamp, ch, shown) = rga.get(elem);
                *place = (elem, stamp.sum, ch, shown);
                at = Some(elem);
            }
        }
    }
    places
}

// Whether an insertion that lacks memory leaves the list as it was, so that it can be asked for again.
fn grows(rga: &mut Rga, n: u8) -> Result<bool, Refusal> {
    let before = picture(rga);
    let sum = u32::from(n) + 1;
    let Err(refusal) = insert(rga, sum, n % 3, None, 'a') else {
        return Ok(true);
    };
    let all = refusal == Refusal::Memory && picture(rga) == before && rga.len() == usize::from(n);
    insert(rga, sum, n % 3, None, 'a')?;
    Ok(all)
}

fn grows_to_14(rga: &mut Rga) -> Result<bool, Refusal> {
    let mut all = true;
    for n in 0..14u8 {
        all &= grows(rga, n)?;
    }
    Ok(all && rga.len() == 14)
}

#[test]
fn a_refused_growth_changes_nothing(rt: HostRuntime) -> Result<(), Fail> {
    assert!(rt; lend(Rga::new(rt.alloc()), grows_to_14)?);
    Ok(())
}

// Reserves in a list of one element, once more where memory was refused.
fn reserves(rga: &mut Rga) -> Result<bool, Refusal> {
    let Err(refusal) = rga.reserve(40) else {
        return Ok(true);
    };
    let mut all = refusal == Refusal::Memory && rga.len() == 1;
    all &= rga.next(None) == Some(0) && rga.next(Some(0)).is_none();
    rga.reserve(40)?;
    Ok(all)
}

fn fills_its_reserve(rga: &mut Rga) -> Result<bool, Refusal> {
    if insert(rga, 1, 31, None, 'a').is_err() {
        insert(rga, 1, 31, None, 'a')?;
    }
    let all = reserves(rga)?;
    for n in 0..40u8 {
        insert(rga, 2, n % 32, None, 'b')?;
    }
    Ok(all && rga.len() == 41)
}

#[test]
fn a_reserve_is_enough(rt: HostRuntime) -> Result<(), Fail> {
    assert!(rt; lend(Rga::new(rt.alloc()), fills_its_reserve)?);
    Ok(())
}

// One deletion, or one insertion of one of five sites, in the list and in the plain program. Says whether
// both answered the same.
fn step(alloc: Global, rga: &mut Rga, plain: &mut Plain, dice: &mut Dice) -> Result<bool, Refusal> {
    let kind = dice.roll(10);
    let site = Site::new(dice.roll(5) as u8)?;
    let chosen = plain.nth(dice.roll(plain.len().saturating_add(1)));
    if kind < 4 {
        return match chosen {
            None => Ok(true),
            Some(chosen) => {
                let target = chosen.stamp;
                let was = plain.is_shown(&chosen);
                plain.add(alloc, target, OpKind::Del { target })?;
                Ok(rga.integrate_del(target)? == was)
            }
        };
    }
    let (least, parent) = match chosen {
        None => (1, None),
        Some(x) => (x.stamp.sum.saturating_add(1), Some(x.stamp)),
    };
    let more = dice.roll(3) as u32;
    match fresh(rga, least.saturating_add(more), site) {
        None => Ok(false),
        Some(stamp) => {
            let arrival = plain.len();
            plain.add(alloc, stamp, OpKind::Ins { parent, ch: 'a' })?;
            let place = rga.integrate_ins(stamp, parent, 'a')?;
            Ok(place.elem as usize == arrival && rga.next(place.before) == Some(place.elem))
        }
    }
}

// Whether the list is what the plain program has.
fn is_as_defined(alloc: Global, rga: &Rga, plain: &Plain) -> Result<bool, AllocError> {
    Ok(is_same(rga, plain, &plain.all(alloc)?))
}

// Whether both answer the same, and have the same list, in 2,000 steps.
fn run_alike(
    alloc: Global,
    rga: &mut Rga,
    plain: &mut Plain,
    dice: &mut Dice,
) -> Result<bool, Refusal> {
    let mut all = true;
    for _ in 0..2_000u32 {
        all &= step(alloc, rga, plain, dice)?;
        all &= is_as_defined(alloc, rga, plain)?;
    }
    Ok(all && rga.len() > 1_000)
}

fn an_empty_one_runs_as_defined(alloc: Global) -> Result<bool, Refusal> {
    let (mut rga, mut plain) = (Rga::new(alloc), Plain::new(alloc));
    run_alike(alloc, &mut rga, &mut plain, &mut Dice::new(1))
}

#[test]
fn a_long_run_is_as_defined(rt: HostRuntime) -> Result<(), Fail> {
    assert!(rt; an_empty_one_runs_as_defined(rt.alloc())?);
    Ok(())
}
