//! An entry hidden, by copies of the nodes on the way to it, which differ in one side.
ghost use Rattle.std.specs.Prelude.{◌≡◌, ◌+◌, ◌<◌, ◌≤◌, length, Some, IsSome};
ghost use Rattle.counted_tree.specs.Internal.Size.{IsSizeOf, ShowsMore};
ghost use Rattle.counted_tree.specs.Steps.{IsCounted};
ghost use Rattle.counted_tree.specs.Internal.Tree.{entries, height};
ghost use Rattle.counted_tree.specs.Internal.Arena.{IsLinkBelow, AreSound};
ghost use Rattle.counted_tree.specs.Internal.Change.{tree_in, Adds};
ghost use Rattle.counted_tree.specs.Internal.PathEntries.{entry_at, before_at, hidden_at, veiled_at};

use crate::entry::{Entry, MAX_ELEMENTS};
use crate::kept::build::{append, copy_left, copy_right, look};
use crate::kept::node::Node;
use crate::kept::nodes::Nodes;
use crate::kept::side::Side;
use crate::size::Size;
use crate::steps::Steps;

/// A tree with an entry hidden.
#[derive(Clone, Copy)]
pub struct Hidden {
    /// The number of its top.
    pub top: u32,
    /// How much less it shows.
    pub less: Size,
    /// How much the entries before that one show.
    pub rank: Size,
}

/// The tree with the entry that the path leads to hidden.
pub fn hide_at(nodes: &mut Nodes, link: Option<u32>, path: &[Side], steps: &mut Steps) -> Hidden
    requires sound { AreSound nodes.old.nodes }
    requires link { IsLinkBelow (length nodes.old.nodes) link }
    requires there { IsSome (entry_at (tree_in nodes.old link) path.now) }
    requires reserved { height (tree_in nodes.old link) ≤ nodes.old.reserved_nodes }
    requires few { length (entries (tree_in nodes.old link)) ≤ MAX_ELEMENTS }
    ensures adds { Adds nodes.old nodes.new (height (tree_in nodes.old link)) }
    ensures number { result.top < length nodes.new.nodes }
    ensures tree { tree_in nodes.new (Some result.top) ≡ veiled_at (tree_in nodes.old link) path.now }
    ensures lists { entries (tree_in nodes.new (Some result.top)) ≡ hidden_at (tree_in nodes.old link) path.now }
    ensures less { ShowsMore result.less (entries (tree_in nodes.old link)) (entries (tree_in nodes.new (Some result.top))) }
    ensures rank { IsSizeOf result.rank (before_at (tree_in nodes.old link) path.now) }
    ensures height { height (tree_in nodes.new (Some result.top)) ≡ height (tree_in nodes.old link) }
    ensures cost { steps.new ≤ steps.old + height (tree_in nodes.old link) }
    ensures each { steps.new + length nodes.old.nodes ≤ steps.old + length nodes.new.nodes }
    ensures counted { IsCounted steps.old steps.new }
{
    let Some(at) = link else { unreachable!() };
    let node = look(nodes, at, steps);
    match path.split_first() {
        None => {
            let entry = Entry {
                shown: false,
                ..node.entry
            };
            let top = append(nodes, Node { entry, ..node });
            Hidden {
                top,
                less: Size::of(&node.entry),
                rank: node.left_size,
            }
        }
        Some((Side::Left, rest)) => {
            let left = hide_at(nodes, node.left, rest, steps);
            let left_size = node.left_size.minus(left.less);
            let top = copy_left(nodes, at, node, left.top, left_size);
            Hidden { top, ..left }
        }
        Some((Side::Right, rest)) => {
            let right = hide_at(nodes, node.right, rest, steps);
            let rank = node.left_size.through(&node.entry, right.rank);
            let top = copy_right(nodes, at, node, right.top);
            Hidden { top, rank, ..right }
        }
    }
}
