//! The shown elements of a tree, from left to right.
ghost use Rattle.std.specs.Prelude.{◌≡◌, ◌<◌, ◌≤◌, ◌+◌, ◌*◌, ◌++◌, length, vec_len, vec_capacity};
ghost use Rattle.counted_tree.specs.Entry.{visible};
ghost use Rattle.counted_tree.specs.Steps.{IsCounted};
ghost use Rattle.counted_tree.specs.Internal.Counter.{CountsOn};
ghost use Rattle.counted_tree.specs.Internal.Tree.{entries, height};
ghost use Rattle.counted_tree.specs.Internal.Arena.{IsLinkBelow, AreSound};
ghost use Rattle.counted_tree.specs.Internal.Change.{tree_in};

use crate::kept::build::look;
use crate::kept::nodes::Nodes;
use crate::steps::Steps;

/// Appends the elements that the tree shows, which are so many, and for which memory is reserved, in order. Looks at no part that
/// shows none, so at no more nodes than lie on the ways down to these elements, and once at each.
pub fn push_shown_in(
    nodes: &Nodes,
    link: Option<u32>,
    shown: u32,
    into: &mut Vec<u32>,
    steps: &mut Steps,
)
    requires sound { AreSound nodes.now.nodes }
    requires link { IsLinkBelow (length nodes.now.nodes) link }
    requires shown { shown ≡ length (visible (entries (tree_in nodes.now link))) }
    requires reserved { vec_len into.old + shown ≤ vec_capacity into.old }
    ensures shown { into.new.items ≡ into.old.items ++ visible (entries (tree_in nodes.now link)) }
    ensures capacity { vec_capacity into.new ≡ vec_capacity into.old }
    ensures cost { steps.new ≤ steps.old + length (entries (tree_in nodes.now link)) }
    ensures few { steps.new ≤ steps.old + shown * height (tree_in nodes.now link) }
    ensures counts_on { CountsOn steps.old steps.new }
    ensures counted { 0 < shown → IsCounted steps.old steps.new }
{
    if shown == 0 {
        return;
    }
    let Some(at) = link else { return };
    let node = look(nodes, at, steps);
    let left = node.left_size.shown;
    let right = shown - left - node.entry.items(false);
    push_shown_in(nodes, node.left, left, into, steps);
    if node.entry.shown {
        into.push_reserved(node.entry.elem);
    }
    push_shown_in(nodes, node.right, right, into, steps);
}
