//! Rooms that have one order of elements or none, as where a peer gave one of them a forged operation of the other's site.
use crate::fixtures::insertion;
use crate::operations::{at_head, behind, operation, stamp};
use causal_clock::Op;
use opid::{Refusal, Site};
use replica_world::one_order;
use room::{Call, Desk, Operations, Outcome, Reply, Room, RoomDesk};
use std::alloc::Global;
use std::test::Fail;

// A room of the site, in which a text was typed, if any, and to which a peer gave this character then.
#[derive(Clone, Copy)]
struct Filled {
    site: Site,
    typed: &'static str,
    given: Option<char>,
}

// Whether the text is accepted as the first submission of a session that joins.
fn types(alloc: Global, desk: &mut RoomDesk, text: &str) -> bool {
    let is_joined = desk.call(Call::Join { units: false }).is_ok();
    match insertion(alloc, 1, 1, 0, 0, text) {
        Ok(typed) => is_joined & matches!(&desk.call(typed), Ok(Reply::Ok { .. })),
        Err(_) => false,
    }
}

// The first operation of site 1, which puts the character in at the beginning; or behind the first one of site 0, which it knows.
fn forged(knows: bool, ch: char) -> Result<Op, Refusal> {
    if knows {
        operation(1, 1, 1, behind(stamp(1, 0)?, ch))
    } else {
        operation(1, 0, 1, at_head(ch))
    }
}

// Whether that operation is taken.
fn takes(alloc: Global, desk: &mut RoomDesk, knows: bool, ch: char) -> bool {
    let Ok(op) = forged(knows, ch) else {
        return false;
    };
    let Ok(ops) = vec![in alloc; op] else {
        return false;
    };
    match desk.call(Call::Put(Operations::new(ops))) {
        Ok(Reply::Put(outcomes)) => outcomes.as_slice() == [Outcome::Took(1, 0)].as_slice(),
        _ => false,
    }
}

// Fills an empty room. Whether all is accepted and taken.
fn fills(alloc: Global, desk: &mut RoomDesk, what: &Filled) -> bool {
    let is_empty = what.typed.is_empty();
    let all = is_empty || types(alloc, desk, what.typed);
    match what.given {
        Some(ch) => all && takes(alloc, desk, !is_empty, ch),
        None => all,
    }
}

// Whether all was accepted and taken, and the room.
fn filled_room(alloc: Global, what: &Filled) -> (bool, Room) {
    let mut desk = RoomDesk::new(Room::new(alloc, what.site));
    let is_filled = fills(alloc, &mut desk, what);
    (is_filled, desk.into_room())
}

// Whether the two rooms have one order of elements.
fn have_one_order(one: Room, other: Room) -> bool {
    let rooms = [one, other];
    one_order(&rooms)
}

// Whether two rooms have one order of elements, where all was accepted and taken in both.
fn are_ordered(alloc: Global, one: &Filled, other: &Filled) -> Option<bool> {
    let (is_filled, one) = filled_room(alloc, one);
    let (is_other_filled, other) = filled_room(alloc, other);
    let is_ordered = have_one_order(one, other);
    if is_filled && is_other_filled {
        Some(is_ordered)
    } else {
        None
    }
}

#[test]
fn rooms_have_one_order_or_none(rt: HostRuntime) -> Result<(), Fail> {
    // what is typed in the room of site 0 and given to it, the site of the other room and what is typed there
    for (typed, given, second, there, wanted) in [
        ("", Some('a'), 1, "a", true),
        ("", Some('b'), 1, "a", false),
        ("", Some('a'), 1, "", false),
        ("HI", Some('p'), 1, "", false),
        ("", None, 1, "", true),
        ("", None, 0, "", false),
    ] {
        let one = Filled {
            site: Site::new(0)?,
            typed,
            given,
        };
        let other = Filled {
            site: Site::new(second)?,
            typed: there,
            given: None,
        };
        assert!(rt; are_ordered(rt.alloc(), &one, &other) == Some(wanted));
    }
    Ok(())
}

// Whether the rooms have one order of elements each time that they are asked.
fn have_one_order_each_time(rooms: &[Room], times: u32) -> bool {
    let mut all = true;
    for _ in 0..times {
        all &= one_order(rooms);
    }
    all
}

// Whether a text is accepted, and what is typed in another room beside it has one order with it, so often.
fn are_ordered_each_time(alloc: Global, times: u32) -> Result<bool, Refusal> {
    let (zero, one) = (Site::new(0)?, Site::new(1)?);
    let (is_filled, first) = filled_room(
        alloc,
        &Filled {
            site: zero,
            typed: "a text in which one looks for the operations of others",
            given: None,
        },
    );
    let (_, second) = filled_room(
        alloc,
        &Filled {
            site: one,
            typed: "",
            given: None,
        },
    );
    Ok(is_filled && have_one_order_each_time(&[first, second], times))
}

// Of these two `tests/refused_memory` looks whether the second takes memory no more often than the first.
#[test]
fn rooms_are_filled(rt: HostRuntime) -> Result<(), Fail> {
    assert!(rt; are_ordered_each_time(rt.alloc(), 0)?);
    Ok(())
}

#[test]
fn filled_rooms_are_compared(rt: HostRuntime) -> Result<(), Fail> {
    assert!(rt; are_ordered_each_time(rt.alloc(), 1_000)?);
    Ok(())
}
