//! Two rooms of two sites that carry operations to each other, each over a desk of its own.
use line_engine::carry;
use opid::Site;
use room::{Call, Characters, Desk, Reply, Room, RoomDesk};
use std::alloc::{AllocError, Global};
use std::test::Fail;

// A desk over an empty room of this site.
pub(crate) fn desk_of(alloc: Global, site: Site) -> RoomDesk {
    RoomDesk::new(Room::new(alloc, site))
}

// The `n`-th submission of session 1, at the beginning of the empty version.
fn insertion(alloc: Global, n: u32, text: &str) -> Result<Call, AllocError> {
    Ok(Call::Ins {
        s: 1,
        n,
        v: 0,
        k: 0,
        x: Characters::from_str(alloc, text)?,
    })
}

// Whether the `n`-th submission is accepted.
fn types(alloc: Global, desk: &mut RoomDesk, n: u32, text: &str) -> bool {
    match insertion(alloc, n, text) {
        Ok(typed) => matches!(&desk.call(typed), Ok(Reply::Ok { .. })),
        Err(_) => false,
    }
}

// A session is opened and types this, whole, at the beginning.
fn begins(alloc: Global, desk: &mut RoomDesk, text: &str) -> bool {
    desk.call(Call::Join { units: false }).is_ok() && types(alloc, desk, 1, text)
}

fn reads(desk: &mut RoomDesk, want: &str) -> bool {
    match desk.call(Call::Read) {
        Ok(Reply::Text { v: _, x }) => x.as_str() == want,
        _ => false,
    }
}

fn carry_each_way(alloc: Global, a: &mut RoomDesk, b: &mut RoomDesk, want: &str) -> bool {
    let mut all = begins(alloc, a, "a") && begins(alloc, b, "b");
    all &= carry(a, b, 0) == Ok(1);
    all &= carry(b, a, 0) == Ok(2);
    all && reads(a, want) && reads(b, want)
}

// Two rooms of these sites, of which the first is carried from first.
fn rooms_carry(alloc: Global, first: Site, second: Site, want: &str) -> bool {
    let mut a = desk_of(alloc, first);
    let mut b = desk_of(alloc, second);
    carry_each_way(alloc, &mut a, &mut b, want)
}

// 64 characters, and 6 more before them.
const MANY: &str = "cccccccccccccccccccccccccccccccccccccccccccccccccccccccccccccccc";

const MORE: &str = "dddddd";

const ALL: &str = "ddddddcccccccccccccccccccccccccccccccccccccccccccccccccccccccccccccccc";

fn carry_seventy(alloc: Global, from: &mut RoomDesk, to: &mut RoomDesk) -> bool {
    let mut all = begins(alloc, from, MANY) && types(alloc, from, 2, MORE);
    for (after, next) in [(0, 64), (64, 70), (70, 70), (71, 71)] {
        all &= carry(from, to, after) == Ok(next);
    }
    all && reads(to, ALL)
}

// The same between rooms of these sites.
fn rooms_carry_seventy(alloc: Global, first: Site, second: Site) -> bool {
    let mut from = desk_of(alloc, first);
    let mut to = desk_of(alloc, second);
    carry_seventy(alloc, &mut from, &mut to)
}

#[test]
fn rooms_carry_to_each_other(rt: HostRuntime) -> Result<(), Fail> {
    let (zero, one) = (Site::new(0)?, Site::new(1)?);
    let mut all = rooms_carry(rt.alloc(), zero, one, "ba");
    all &= rooms_carry(rt.alloc(), one, zero, "ab");
    all &= rooms_carry_seventy(rt.alloc(), zero, one);
    assert!(rt; all);
    Ok(())
}
