//! Hidings that tell the ranks of their element, beside a scan of all elements.

use crate::dice::Dice;
use crate::trees::made::looks;
use crate::trees::plain::Plain;
use crate::trees::{OPERATIONS, below, find_the_same, of_empty_ones, put_in_both, rank_the_same};
use counted_tree::{Steps, VersionTree};
use std::alloc::AllocError;
use std::test::Fail;

// Hides the element at the place of the newest version, if there is one, in the tree and in the scan. Whether the tree tells that as
// much stands before it as in the scan, and looks at as many nodes as where it is asked for the ranks alone.
fn hide_in_both(tree: &mut VersionTree, plain: &mut Plain, k: usize) -> bool {
    if tree.room() == 0 {
        return true;
    }
    let before = tree.newest();
    let mut steps = Steps::new();
    let Some(e) = tree.find(before, k, &mut steps) else {
        return true;
    };
    let asked = looks(tree, e);
    let mut looked = Steps::new();
    let ranks = tree.hide_ranked(e, &mut looked);
    let same = (ranks.shown as usize, ranks.units as usize) == plain.ranks(before, e)
        && asked == Some(looked.count());
    plain.hide(e, tree.newest());
    same
}

// Random insertions and hidings. Whether each hiding tells the ranks that the scan has, and the last version is the same.
fn tells_ranks(tree: &mut VersionTree, plain: &mut Plain) -> Result<bool, AllocError> {
    let mut dice = Dice::new(17);
    let mut all = true;
    for _ in 0..OPERATIONS {
        let n = tree.elements() as u32;
        let before = below(&mut dice, n.saturating_add(1));
        if dice.roll(3) == 0 {
            all &= hide_in_both(tree, plain, before as usize);
        } else {
            let wide = dice.roll(3) == 0;
            put_in_both(
                tree,
                plain,
                before.checked_sub(1),
                dice.roll(9) as u32,
                wide,
            )?;
        }
    }
    all &= find_the_same(tree, plain, tree.newest(), 2 * OPERATIONS);
    Ok(all && rank_the_same(tree, plain))
}

#[test]
fn hidings_tell_the_ranks_of_a_scan(rt: HostRuntime) -> Result<(), Fail> {
    assert!(rt; of_empty_ones(rt.alloc(), OPERATIONS, tells_ranks)?);
    Ok(())
}
