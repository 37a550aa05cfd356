//! Worked trees, in elements and in units.

use crate::lending::lend;
use crate::trees::{empty, found, found_unit, hide, last_greater, lengths, mark, put, ranks};
use counted_tree::VersionTree;
use std::test::Fail;

// Two elements, of which the first is hidden, a version like that one, and a third element between the two.
fn work(tree: &mut VersionTree) {
    put(tree, None, 7, false);
    put(tree, Some(0), 5, false);
    hide(tree, 0);
    mark(tree);
    put(tree, Some(0), 6, false);
}

fn has_places(tree: &VersionTree) -> bool {
    let mut all = lengths(tree, 0) == Some((0, 0)) && lengths(tree, 5) == Some((2, 2));
    for (version, place, elem) in [
        (2, 0, Some(0)),
        (3, 0, Some(1)),
        (4, 0, Some(1)),
        (5, 0, Some(2)),
        (5, 1, Some(1)),
        (5, 2, None),
    ] {
        all &= found(tree, version, place) == elem;
    }
    all && ranks(tree, 2) == Some((0, 0)) && ranks(tree, 1) == Some((1, 1))
}

fn has_ways(tree: &VersionTree) -> bool {
    let mut all = true;
    for (before, key, last) in [
        (None, 7, None),
        (None, 6, Some(0)),
        (Some(0), 6, Some(0)),
        (Some(0), 5, Some(2)),
        (Some(0), 4, Some(1)),
        (Some(1), 0, Some(1)),
    ] {
        all &= last_greater(tree, before, key) == last;
    }
    all
}

fn works(tree: &mut VersionTree) -> bool {
    work(tree);
    has_places(tree) && has_ways(tree)
}

#[test]
fn worked_versions(rt: HostRuntime) -> Result<(), Fail> {
    assert!(rt; lend(empty(rt.alloc(), 5)?, works));
    Ok(())
}

// The first element and the last have two units; the first is hidden in version 4.
fn work_with_pairs(tree: &mut VersionTree) {
    put(tree, None, 1, true);
    put(tree, Some(0), 2, false);
    put(tree, Some(1), 3, true);
    hide(tree, 0);
}

fn has_units(tree: &VersionTree) -> bool {
    let mut all = true;
    for (version, place, unit) in [
        (3, 0, Some((0, 0))),
        (3, 1, Some((0, 1))),
        (3, 2, Some((1, 0))),
        (3, 4, Some((2, 1))),
        (3, 5, None),
        (4, 1, Some((2, 0))),
        (2, 2, Some((1, 0))),
    ] {
        all &= found_unit(tree, version, place) == unit;
    }
    all
}

fn has_lengths_in_units(tree: &VersionTree) -> bool {
    let mut all = ranks(tree, 2) == Some((1, 1)) && ranks(tree, 0) == Some((0, 0));
    for (version, lengths_there) in [(0, (0, 0)), (3, (3, 5)), (4, (2, 3))] {
        all &= lengths(tree, version) == Some(lengths_there);
    }
    all
}

fn works_in_units(tree: &mut VersionTree) -> bool {
    work_with_pairs(tree);
    has_units(tree) && has_lengths_in_units(tree)
}

#[test]
fn worked_units(rt: HostRuntime) -> Result<(), Fail> {
    assert!(rt; lend(empty(rt.alloc(), 4)?, works_in_units));
    Ok(())
}
