//! The nodes on the way down a tree.
ghost use Rattle.std.specs.Prelude.{◌≡◌, ◌+◌, ◌<◌, ◌≤◌, length, IsSome, Some};
ghost use Rattle.counted_tree.specs.Internal.Arena.{AreSound};
ghost use Rattle.counted_tree.specs.Internal.Change.{tree_in};
ghost use Rattle.counted_tree.specs.Internal.PathEntries.{entry_at};
ghost use Rattle.counted_tree.specs.Internal.Insertion.{AreAlong};
ghost use Rattle.counted_tree.specs.Internal.Counter.{CountsOn};

use crate::kept::build::look;
use crate::kept::nodes::Nodes;
use crate::kept::side::Side;
use crate::read::climb::MAX_HEIGHT;
use crate::steps::Steps;
use arrayvec::ArrayVec;

/// The numbers of the nodes on the way from one down to the entry that the path leads to, of both as well.
pub fn numbers_along(
    nodes: &Nodes,
    top: u32,
    path: &[Side],
    steps: &mut Steps,
) -> ArrayVec<u32, MAX_HEIGHT>
    requires sound { AreSound nodes.now.nodes }
    requires top { top < length nodes.now.nodes }
    requires there { IsSome (entry_at (tree_in nodes.now (Some top)) path.now) }
    requires short { length path.now < MAX_HEIGHT }
    ensures numbers { AreAlong nodes.now (tree_in nodes.now (Some top)) path.now result.items }
    ensures count { length result.items ≡ length path.now + 1 }
    ensures cost { steps.new ≤ steps.old + length path.now }
    ensures counts_on { CountsOn steps.old steps.new }
{
    let mut numbers = ArrayVec::new();
    let mut at = top;
    for side in path {
        numbers.push(at);
        let Some(below) = look(nodes, at, steps).side(*side) else {
            unreachable!()
        };
        at = below;
    }
    numbers.push(at);
    numbers
}
