//! A fork that first rotates where one side is two levels higher.
ghost use Rattle.std.specs.Prelude.{◌≡◌, ◌+◌, ◌*◌, ◌<◌, ◌≤◌, length};
ghost use Rattle.counted_tree.specs.Internal.Keys.{IsKnown};
ghost use Rattle.counted_tree.specs.Internal.Size.{IsSizeOf};
ghost use Rattle.counted_tree.specs.Internal.Tree.{entries, height};
ghost use Rattle.counted_tree.specs.Internal.Arena.{AreSound};
ghost use Rattle.counted_tree.specs.Internal.Branch.{IsBranch};
ghost use Rattle.counted_tree.specs.Internal.Change.{tree_in, Adds, DifferByAtMost, IsRebuilt};
ghost use Rattle.counted_tree.specs.Internal.Table.{IsReady, Hangs};
ghost use Rattle.counted_tree.specs.Internal.Counter.{CountsOn};

use crate::entry::{Entry, MAX_ELEMENTS};
use crate::insert::branch::{Branch, branch_of};
use crate::insert::fork::fork;
use crate::kept::build::look;
use crate::kept::nodes::Nodes;
use crate::kept::packed_row::PackedRow;
use crate::size::Size;
use crate::steps::Steps;

// Where the left side is two levels higher.
fn lean_left(
    nodes: &mut Nodes,
    table: &mut [PackedRow],
    left: Branch,
    left_size: Size,
    entry: Entry,
    right: Branch,
    steps: &mut Steps,
) -> Branch
    requires sound { AreSound nodes.old.nodes }
    requires left { IsBranch nodes.old left }
    requires right { IsBranch nodes.old right }
    requires reserved { 3 ≤ nodes.old.reserved_nodes }
    requires known { IsKnown nodes.old.keys_and_widths entry }
    requires size { IsSizeOf left_size (entries (tree_in nodes.old left.link)) }
    requires two_higher { height (tree_in nodes.old left.link) ≡ height (tree_in nodes.old right.link) + 2 }
    requires few { length (entries (tree_in nodes.old left.link)) + length (entries (tree_in nodes.old right.link)) < MAX_ELEMENTS }
    requires ready { IsReady table.old (tree_in nodes.old left.link) entry (tree_in nodes.old right.link) }
    ensures adds { Adds nodes.old nodes.new 3 }
    ensures branch { IsBranch nodes.new result }
    ensures rebuilt { IsRebuilt (tree_in nodes.old left.link) entry (tree_in nodes.old right.link) (tree_in nodes.new result.link) }
    ensures hangs { Hangs table.old table.new (tree_in nodes.new result.link) }
    ensures cost { steps.new + 4 * length nodes.old.nodes + 4 ≤ steps.old + 4 * length nodes.new.nodes }
    ensures counts_on { CountsOn steps.old steps.new }
{
    let Some(at) = left.link else { unreachable!() };
    let node = look(nodes, at, steps);
    let outer = branch_of(nodes, table, node.left, steps);
    let inner = branch_of(nodes, table, node.right, steps);
    let inner_size = left_size.beyond(node.left_size, &node.entry);
    if inner.height <= outer.height {
        let low = fork(nodes, table, inner, inner_size, entry, right);
        return fork(nodes, table, outer, node.left_size, node.entry, low);
    }
    let Some(below) = inner.link else {
        unreachable!()
    };
    let middle = look(nodes, below, steps);
    let middle_left = branch_of(nodes, table, middle.left, steps);
    let middle_right = branch_of(nodes, table, middle.right, steps);
    let low_left = fork(nodes, table, outer, node.left_size, node.entry, middle_left);
    let low_size = inner_size.beyond(middle.left_size, &middle.entry);
    let low_right = fork(nodes, table, middle_right, low_size, entry, right);
    let top_size = node.left_size.through(&node.entry, middle.left_size);
    fork(nodes, table, low_left, top_size, middle.entry, low_right)
}

// Where the right side is two levels higher.
fn lean_right(
    nodes: &mut Nodes,
    table: &mut [PackedRow],
    left: Branch,
    left_size: Size,
    entry: Entry,
    right: Branch,
    steps: &mut Steps,
) -> Branch
    requires sound { AreSound nodes.old.nodes }
    requires left { IsBranch nodes.old left }
    requires right { IsBranch nodes.old right }
    requires reserved { 3 ≤ nodes.old.reserved_nodes }
    requires known { IsKnown nodes.old.keys_and_widths entry }
    requires size { IsSizeOf left_size (entries (tree_in nodes.old left.link)) }
    requires two_higher { height (tree_in nodes.old right.link) ≡ height (tree_in nodes.old left.link) + 2 }
    requires few { length (entries (tree_in nodes.old left.link)) + length (entries (tree_in nodes.old right.link)) < MAX_ELEMENTS }
    requires ready { IsReady table.old (tree_in nodes.old left.link) entry (tree_in nodes.old right.link) }
    ensures adds { Adds nodes.old nodes.new 3 }
    ensures branch { IsBranch nodes.new result }
    ensures rebuilt { IsRebuilt (tree_in nodes.old left.link) entry (tree_in nodes.old right.link) (tree_in nodes.new result.link) }
    ensures hangs { Hangs table.old table.new (tree_in nodes.new result.link) }
    ensures cost { steps.new + 4 * length nodes.old.nodes + 4 ≤ steps.old + 4 * length nodes.new.nodes }
    ensures counts_on { CountsOn steps.old steps.new }
{
    let Some(at) = right.link else { unreachable!() };
    let node = look(nodes, at, steps);
    let inner = branch_of(nodes, table, node.left, steps);
    let outer = branch_of(nodes, table, node.right, steps);
    if inner.height <= outer.height {
        let low = fork(nodes, table, left, left_size, entry, inner);
        let top_size = left_size.through(&entry, node.left_size);
        return fork(nodes, table, low, top_size, node.entry, outer);
    }
    let Some(below) = inner.link else {
        unreachable!()
    };
    let middle = look(nodes, below, steps);
    let middle_left = branch_of(nodes, table, middle.left, steps);
    let middle_right = branch_of(nodes, table, middle.right, steps);
    let low_left = fork(nodes, table, left, left_size, entry, middle_left);
    let low_size = node.left_size.beyond(middle.left_size, &middle.entry);
    let low_right = fork(nodes, table, middle_right, low_size, node.entry, outer);
    let top_size = left_size.through(&entry, middle.left_size);
    fork(nodes, table, low_left, top_size, middle.entry, low_right)
}

/// A balanced tree of two sides that differ by at most two levels, of which the left one shows so much, and an entry between them.
pub fn rebuild(
    nodes: &mut Nodes,
    table: &mut [PackedRow],
    left: Branch,
    left_size: Size,
    entry: Entry,
    right: Branch,
    steps: &mut Steps,
) -> Branch
    requires sound { AreSound nodes.old.nodes }
    requires left { IsBranch nodes.old left }
    requires right { IsBranch nodes.old right }
    requires reserved { 3 ≤ nodes.old.reserved_nodes }
    requires known { IsKnown nodes.old.keys_and_widths entry }
    requires size { IsSizeOf left_size (entries (tree_in nodes.old left.link)) }
    requires nearly { DifferByAtMost 2 (height (tree_in nodes.old left.link)) (height (tree_in nodes.old right.link)) }
    requires few { length (entries (tree_in nodes.old left.link)) + length (entries (tree_in nodes.old right.link)) < MAX_ELEMENTS }
    requires ready { IsReady table.old (tree_in nodes.old left.link) entry (tree_in nodes.old right.link) }
    ensures adds { Adds nodes.old nodes.new 3 }
    ensures plain { DifferByAtMost 1 (height (tree_in nodes.old left.link)) (height (tree_in nodes.old right.link))
        → length nodes.new.nodes ≡ length nodes.old.nodes + 1 }
    ensures branch { IsBranch nodes.new result }
    ensures rebuilt { IsRebuilt (tree_in nodes.old left.link) entry (tree_in nodes.old right.link) (tree_in nodes.new result.link) }
    ensures hangs { Hangs table.old table.new (tree_in nodes.new result.link) }
    ensures cost { steps.new + 4 * length nodes.old.nodes + 4 ≤ steps.old + 4 * length nodes.new.nodes }
    ensures counts_on { CountsOn steps.old steps.new }
{
    if right.height < left.height && left.height - right.height > 1 {
        lean_left(nodes, table, left, left_size, entry, right, steps)
    } else if left.height < right.height && right.height - left.height > 1 {
        lean_right(nodes, table, left, left_size, entry, right, steps)
    } else {
        fork(nodes, table, left, left_size, entry, right)
    }
}
