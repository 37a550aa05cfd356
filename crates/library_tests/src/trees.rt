//! A random tree beside a scan of all elements, and the longest one.
mod hidings;
mod made;
mod plain;
mod recursive;
mod steps;
mod worked;

ghost use Rattle.std.specs.Prelude.{◌<◌, ◌≤◌, ◌^◌};

use crate::dice::Dice;
use crate::lending::lend;
use crate::trees::plain::Plain;
use counted_tree::{Steps, VersionTree};
use std::alloc::{AllocError, Global};
use std::test::Fail;

const OPERATIONS: usize = 120;

const ELEMENTS: usize = 400;

// An empty tree, with memory for so many versions.
fn empty(alloc: Global, versions: usize) -> Result<VersionTree, AllocError>
    requires { versions ≤ 131072 }
{
    let mut tree = VersionTree::new(alloc);
    tree.reserve(versions)?;
    Ok(tree)
}

// Asks something of an empty tree and a scan of no elements.
fn of_empty_ones<F: Fn(&mut VersionTree, &mut Plain) -> Result<bool, AllocError>>(
    alloc: Global,
    versions: usize,
    asked: F,
) -> Result<bool, AllocError>
    requires callable { F.IsAlwaysCallable asked }
    requires most { versions ≤ 131072 }
{
    let mut tree = empty(alloc, versions)?;
    asked(&mut tree, &mut Plain::new(alloc))
}

// A number below this one, or 0 where there is none.
fn below(dice: &mut Dice, n: u32) -> u32 {
    if n == 0 {
        0
    } else {
        dice.roll(n as usize) as u32
    }
}

// The element that a version shows at the place, if there are both.
fn found(tree: &VersionTree, version: usize, k: usize) -> Option<u32> {
    if version > tree.newest() {
        return None;
    }
    tree.find(version, k, &mut Steps::new())
}

// The element that has a unit of what a version shows, if there are both, and which of its units that is.
fn found_unit(tree: &VersionTree, version: usize, k: usize) -> Option<(u32, u8)> {
    if version > tree.newest() {
        return None;
    }
    tree.find_units(version, k, &mut Steps::new())
}

// How many elements, and how many units, stand before an element in the newest version, if it is there.
fn ranks(tree: &VersionTree, elem: u32) -> Option<(usize, usize)> {
    if elem as usize >= tree.elements() {
        return None;
    }
    let rank = tree.rank(elem, &mut Steps::new());
    Some((rank, tree.rank_units(elem, &mut Steps::new())))
}

// How many elements, and how many units, a version shows, if it is there.
fn lengths(tree: &VersionTree, version: usize) -> Option<(usize, usize)> {
    if version > tree.newest() {
        return None;
    }
    Some((tree.shown(version), tree.units(version)))
}

// The last element that one passes from one on, if it is there, or from before all others, as long as the keys are greater.
fn last_greater(tree: &VersionTree, before: Option<u32>, key: u32) -> Option<u32> {
    if let Some(e) = before {
        if e as usize >= tree.elements() {
            return None;
        }
        tree.last_greater(Some(e), key, &mut Steps::new())
    } else {
        tree.last_greater(None, key, &mut Steps::new())
    }
}

// Puts the next element in, before all others or after one that is there. Whether it did.
fn put(tree: &mut VersionTree, before: Option<u32>, key: u32, wide: bool) -> bool
    requires { key < 2 ^ 23 }
{
    if tree.room() == 0 {
        return false;
    }
    let n = tree.elements();
    if let Some(e) = before {
        if e as usize >= n {
            return false;
        }
        tree.insert_after(Some(e), n as u32, key, wide, &mut Steps::new());
    } else {
        tree.insert_after(None, n as u32, key, wide, &mut Steps::new());
    }
    true
}

// Hides the element at the place of the newest version, if there is one, and tells which.
fn hide(tree: &mut VersionTree, k: usize) -> Option<u32> {
    if tree.room() == 0 {
        return None;
    }
    let mut steps = Steps::new();
    if let Some(e) = tree.find(tree.newest(), k, &mut steps) {
        tree.hide(e);
        return Some(e);
    }
    None
}

// Makes a version like the one before.
fn mark(tree: &mut VersionTree) {
    if tree.room() > 0 {
        tree.mark();
    }
}

// The same in the tree and in the scan.
fn put_in_both(
    tree: &mut VersionTree,
    plain: &mut Plain,
    before: Option<u32>,
    key: u32,
    wide: bool,
) -> Result<(), AllocError>
    requires { key < 2 ^ 23 }
{
    let n = tree.elements() as u32;
    if !put(tree, before, key, wide) {
        return Ok(());
    }
    plain.insert_after(before, n, key, wide, tree.newest())
}

// The same in the tree and in the scan.
fn hide_in_both(tree: &mut VersionTree, plain: &mut Plain, k: usize) {
    if let Some(e) = hide(tree, k) {
        plain.hide(e, tree.newest());
    }
}

fn step(tree: &mut VersionTree, plain: &mut Plain, dice: &mut Dice) -> Result<(), AllocError> {
    let n = tree.elements() as u32;
    let key = dice.roll(9) as u32;
    let wide = dice.roll(3) == 0;
    match dice.roll(10) {
        0 => {
            mark(tree);
            Ok(())
        }
        1 => put_in_both(tree, plain, None, key, wide),
        2 | 3 | 4 => {
            hide_in_both(tree, plain, below(dice, n) as usize);
            Ok(())
        }
        5 | 6 => put_in_both(tree, plain, n.checked_sub(1), key, wide),
        _ => put_in_both(tree, plain, Some(below(dice, n)), key, wide),
    }
}

// Whether the tree and the scan find the same at so many places of a version, in either count.
fn find_the_same(tree: &VersionTree, plain: &Plain, version: usize, places: usize) -> bool {
    let mut all = true;
    for k in 0..places {
        all &= found(tree, version, k) == plain.find(version, k);
        all &= found_unit(tree, version, k) == plain.find_units(version, k);
    }
    all
}

// Whether each element has the same ranks in the tree and in the scan.
fn rank_the_same(tree: &VersionTree, plain: &Plain) -> bool {
    let mut all = true;
    for elem in 0..tree.elements() as u32 {
        all &= ranks(tree, elem) == Some(plain.ranks(tree.newest(), elem));
    }
    all
}

// Whether one passes as far in the tree as in the scan, past the elements with a greater key than this.
fn pass_the_same(tree: &VersionTree, plain: &Plain, key: u32) -> bool {
    let mut all = last_greater(tree, None, key) == plain.last_greater(None, key);
    for elem in 0..tree.elements() as u32 {
        all &= last_greater(tree, Some(elem), key) == plain.last_greater(Some(elem), key);
    }
    all
}

// Random steps, of which each version is kept.
fn grow(tree: &mut VersionTree, plain: &mut Plain, dice: &mut Dice) -> Result<(), AllocError> {
    for _ in 0..OPERATIONS {
        step(tree, plain, dice)?;
    }
    Ok(())
}

// Whether a random tree and a scan tell the same.
fn agrees(tree: &mut VersionTree, plain: &mut Plain) -> Result<bool, AllocError> {
    grow(tree, plain, &mut Dice::new(11))?;
    let mut all = tree.newest() > 90;
    for version in 0..tree.newest() + 1 {
        all &= find_the_same(tree, plain, version, 2 * OPERATIONS);
    }
    for key in 0..10 {
        all &= pass_the_same(tree, plain, key);
    }
    Ok(all && rank_the_same(tree, plain))
}

#[test]
fn agrees_with_a_scan(rt: HostRuntime) -> Result<(), Fail> {
    assert!(rt; of_empty_ones(rt.alloc(), OPERATIONS, agrees)?);
    Ok(())
}

// Elements of which few have keys below the greatest ones, so that ways are long.
fn grow_long_ways(
    tree: &mut VersionTree,
    plain: &mut Plain,
    dice: &mut Dice,
) -> Result<(), AllocError> {
    for n in 0..ELEMENTS as u32 {
        let least = if dice.roll(40) == 0 {
            65_000
        } else {
            8_387_608
        };
        let key = least + dice.roll(1000) as u32;
        let before = below(dice, n + 1).checked_sub(1);
        put_in_both(tree, plain, before, key, dice.roll(3) == 0)?;
    }
    Ok(())
}

// Whether long ways are the same in the tree and in a scan, and the places of the newest version.
fn agrees_on_long_ways(tree: &mut VersionTree, plain: &mut Plain) -> Result<bool, AllocError> {
    grow_long_ways(tree, plain, &mut Dice::new(5))?;
    let mut all = tree.elements() == ELEMENTS;
    for key in [0, 65_500, 65_999, 8_387_608, 8_388_606, 8_388_607, u32::MAX] {
        all &= pass_the_same(tree, plain, key);
    }
    all &= find_the_same(tree, plain, tree.newest(), 2 * ELEMENTS);
    Ok(all && rank_the_same(tree, plain))
}

#[test]
fn long_ways_agree_with_a_scan(rt: HostRuntime) -> Result<(), Fail> {
    assert!(rt; of_empty_ones(rt.alloc(), ELEMENTS, agrees_on_long_ways)?);
    Ok(())
}

// Whether the version has an element at the place, which is found in 1 to 36 steps.
fn is_found_soon(tree: &VersionTree, version: usize, k: usize) -> bool {
    if version > tree.newest() {
        return false;
    }
    let mut steps = Steps::new();
    tree.find(version, k, &mut steps).is_some() && (1..=36).contains(&steps.count())
}

// Runs of 64 elements, each run before all others; the last two are one of their own. Keys rise to near 2^23.
fn grow_longest(tree: &mut VersionTree) {
    for n in 0..131_072u32 {
        let before = if n % 64 == 0 || n == 131_070 {
            None
        } else {
            n.checked_sub(1)
        };
        put(tree, before, 64 * n, n % 3 == 0);
    }
}

// Whether a place of each version is found soon.
fn finds_soon(tree: &VersionTree, dice: &mut Dice) -> bool {
    let mut all = true;
    for version in 1..131_073usize {
        all &= is_found_soon(tree, version, dice.roll(version));
    }
    all
}

fn stays_within_its_bounds(tree: &mut VersionTree) -> bool {
    grow_longest(tree);
    let all = tree.newest() == 131_072 && tree.nodes() <= 5_242_880;
    all && finds_soon(tree, &mut Dice::new(3))
}

#[test]
fn the_longest_log_stays_within_its_bounds(rt: HostRuntime) -> Result<(), Fail> {
    assert!(rt; lend(empty(rt.alloc(), 131_072)?, stays_within_its_bounds));
    Ok(())
}
