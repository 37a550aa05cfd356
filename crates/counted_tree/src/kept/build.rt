//! A node over old ones, read or made.
ghost use Rattle.std.specs.Prelude.{◌≡◌, ◌+◌, ◌-◌, ◌^◌, ◌<◌, ◌≤◌, length, min, slice_get, Some};
ghost use Rattle.counted_tree.specs.Internal.Keys.{IsKnown};
ghost use Rattle.counted_tree.specs.Internal.Size.{IsSizeOf};
ghost use Rattle.counted_tree.specs.Internal.Tree.{entries, height, IsBalanced};
ghost use Rattle.counted_tree.specs.Internal.Tree.Tree.{Fork};
ghost use Rattle.counted_tree.specs.Internal.Arena.{IsLinkBelow, IsSoundNode, AreSound, trees};
ghost use Rattle.counted_tree.specs.Internal.Change.{tree_in, Adds, DifferByAtMost};

use crate::entry::MAX_ELEMENTS;
use crate::kept::node::Node;
use crate::kept::nodes::Nodes;
use crate::size::Size;
use crate::steps::Steps;

/// Appends a node that tells what is so, and gives its number. The newest tree's table is not told.
pub fn append(nodes: &mut Nodes, node: Node) -> u32
    requires sound { AreSound nodes.old.nodes }
    requires node { IsSoundNode (trees nodes.old.nodes) node }
    requires reserved { 0 < nodes.old.reserved_nodes }
    requires known { IsKnown nodes.old.keys_and_widths node.entry }
    requires few { length (entries (tree_in nodes.old node.left)) + length (entries (tree_in nodes.old node.right)) < MAX_ELEMENTS }
    ensures adds { Adds nodes.old nodes.new 1 }
    ensures count { length nodes.new.nodes ≡ length nodes.old.nodes + 1 }
    ensures number { result < length nodes.new.nodes }
    ensures tree { tree_in nodes.new (Some result) ≡ Fork (tree_in nodes.old node.left) node.entry (tree_in nodes.old node.right) }
{
    nodes.push(node)
}

/// Appends a copy of a node with another left side, which shows so much, and gives its number. Of the node only its number is used. The
/// newest tree's table is not told.
#[inline(always)]
pub fn copy_left(nodes: &mut Nodes, at: u32, node: Node, left: u32, size: Size) -> u32
    requires sound { AreSound nodes.old.nodes }
    requires at { slice_get nodes.old.nodes at ≡ Some node }
    requires node { IsSoundNode (trees nodes.old.nodes) node }
    requires reserved { 0 < nodes.old.reserved_nodes }
    requires left { left < length nodes.old.nodes }
    requires size { IsSizeOf size (entries (tree_in nodes.old (Some left))) }
    requires balanced { DifferByAtMost 1 (height (tree_in nodes.old (Some left))) (height (tree_in nodes.old node.right)) }
    requires few { length (entries (tree_in nodes.old (Some left))) < MAX_ELEMENTS }
    ensures adds { Adds nodes.old nodes.new 1 }
    ensures count { length nodes.new.nodes ≡ length nodes.old.nodes + 1 }
    ensures number { result < length nodes.new.nodes }
    ensures tree { tree_in nodes.new (Some result) ≡ Fork (tree_in nodes.old (Some left)) node.entry (tree_in nodes.old node.right) }
{
    nodes.push_with_left(at, left, size)
}

/// The same with another right side.
#[inline(always)]
pub fn copy_right(nodes: &mut Nodes, at: u32, node: Node, right: u32) -> u32
    requires sound { AreSound nodes.old.nodes }
    requires at { slice_get nodes.old.nodes at ≡ Some node }
    requires node { IsSoundNode (trees nodes.old.nodes) node }
    requires reserved { 0 < nodes.old.reserved_nodes }
    requires right { right < length nodes.old.nodes }
    requires balanced { DifferByAtMost 1 (height (tree_in nodes.old node.left)) (height (tree_in nodes.old (Some right))) }
    ensures adds { Adds nodes.old nodes.new 1 }
    ensures count { length nodes.new.nodes ≡ length nodes.old.nodes + 1 }
    ensures number { result < length nodes.new.nodes }
    ensures tree { tree_in nodes.new (Some result) ≡ Fork (tree_in nodes.old node.left) node.entry (tree_in nodes.old (Some right)) }
{
    nodes.push_with_right(at, right)
}

/// The node with this number, and what it stands for. A step is counted.
pub fn look(nodes: &Nodes, at: u32, steps: &mut Steps) -> Node
    requires sound { AreSound nodes.now.nodes }
    requires number { at < length nodes.now.nodes }
    ensures left { IsLinkBelow (length nodes.now.nodes) result.left }
    ensures right { IsLinkBelow (length nodes.now.nodes) result.right }
    ensures tree { tree_in nodes.now (Some at) ≡ Fork (tree_in nodes.now result.left) result.entry (tree_in nodes.now result.right) }
    ensures balanced { IsBalanced (Fork (tree_in nodes.now result.left) result.entry (tree_in nodes.now result.right)) }
    ensures known { IsKnown nodes.now.keys_and_widths result.entry }
    ensures size { IsSizeOf result.left_size (entries (tree_in nodes.now result.left)) }
    ensures node { slice_get nodes.now.nodes at ≡ Some result }
    ensures step { steps.new ≡ min (steps.old + 1) (2 ^ 64 - 1) }
    ensures cost { steps.new ≤ steps.old + 1 }
{
    nodes.look(at, steps)
}
