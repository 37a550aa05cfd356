//! A fork that the newest tree's table knows of: the tops of its two sides are hung from it.
ghost use Rattle.std.specs.Prelude.{◌≡◌, ◌+◌, ◌^◌, ◌<◌, ◌≤◌, length, IfSome};
ghost use Rattle.counted_tree.specs.Internal.Keys.{IsKnown};
ghost use Rattle.counted_tree.specs.Internal.Size.{IsSizeOf};
ghost use Rattle.counted_tree.specs.Internal.Tree.{Tree, entries, height};
ghost use Rattle.counted_tree.specs.Internal.Tree.Tree.{Fork};
ghost use Rattle.counted_tree.specs.Internal.Arena.{AreSound};
ghost use Rattle.counted_tree.specs.Internal.Branch.{IsBranchOf, IsBranch};
ghost use Rattle.counted_tree.specs.Internal.Change.{tree_in, Adds, DifferByAtMost};
ghost use Rattle.counted_tree.specs.Internal.Table.{IsReady, Hangs, pointed};

use crate::entry::{Entry, MAX_ELEMENTS};
use crate::insert::branch::Branch;
use crate::kept::above::Above;
use crate::kept::build::append;
use crate::kept::node::Node;
use crate::kept::nodes::Nodes;
use crate::kept::packed_row::PackedRow;
use crate::kept::row::Row;
use crate::kept::side::Side;
use crate::size::Size;

/// Notes what the top element of a tree hangs from, and the least key and the height of the tree.
pub fn hang(table: &mut [PackedRow], branch: Branch, above: Option<Above>)
    requires row { IfSome branch.link (λ k. branch.elem < length table.old) }
    requires above { IfSome above (λ a. a.elem < 2 ^ 17) }
    requires least { branch.least ≤ 2 ^ 23 }
    requires height { branch.height < 2 ^ 6 }
    ensures { (t : Tree) → IsBranchOf branch t → table.new ≡ pointed table.old t above }
{
    if branch.link.is_some() {
        table[branch.elem as usize] = PackedRow::new(Row {
            above,
            least: branch.least,
            height: branch.height,
        });
    }
}

/// A node over two trees that differ by at most one level, of which the left one shows so much. Looks at no node.
pub fn fork(
    nodes: &mut Nodes,
    table: &mut [PackedRow],
    left: Branch,
    left_size: Size,
    entry: Entry,
    right: Branch,
) -> Branch
    requires sound { AreSound nodes.old.nodes }
    requires left { IsBranch nodes.old left }
    requires right { IsBranch nodes.old right }
    requires reserved { 0 < nodes.old.reserved_nodes }
    requires known { IsKnown nodes.old.keys_and_widths entry }
    requires size { IsSizeOf left_size (entries (tree_in nodes.old left.link)) }
    requires balanced { DifferByAtMost 1 (height (tree_in nodes.old left.link)) (height (tree_in nodes.old right.link)) }
    requires few { length (entries (tree_in nodes.old left.link)) + length (entries (tree_in nodes.old right.link)) < MAX_ELEMENTS }
    requires ready { IsReady table.old (tree_in nodes.old left.link) entry (tree_in nodes.old right.link) }
    ensures adds { Adds nodes.old nodes.new 1 }
    ensures count { length nodes.new.nodes ≡ length nodes.old.nodes + 1 }
    ensures branch { IsBranch nodes.new result }
    ensures tree { tree_in nodes.new result.link ≡ Fork (tree_in nodes.old left.link) entry (tree_in nodes.old right.link) }
    ensures hangs { Hangs table.old table.new (Fork (tree_in nodes.old left.link) entry (tree_in nodes.old right.link)) }
{
    let on_left = Above {
        elem: entry.elem,
        side: Side::Left,
    };
    let on_right = Above {
        elem: entry.elem,
        side: Side::Right,
    };
    hang(table, left, Some(on_left));
    hang(table, right, Some(on_right));
    let number = append(
        nodes,
        Node {
            entry,
            left: left.link,
            right: right.link,
            left_size,
        },
    );
    Branch {
        link: Some(number),
        elem: entry.elem,
        least: left.least.min(entry.key).min(right.least),
        height: left.height.max(right.height) + 1,
    }
}
