//! How much the entries before one show, in the newest tree and in any.
ghost use Rattle.std.specs.Prelude.{◌+◌, ◌≤◌, length, IsSome, ◌*◌};
ghost use Rattle.counted_tree.specs.Internal.Size.{IsSizeOf};
ghost use Rattle.counted_tree.specs.Steps.{IsCounted};
ghost use Rattle.counted_tree.specs.Internal.Tree.{entries, height};
ghost use Rattle.counted_tree.specs.Internal.Arena.{IsLinkBelow, AreSound};
ghost use Rattle.counted_tree.specs.Internal.Change.{tree_in};
ghost use Rattle.counted_tree.specs.Internal.PathEntries.{entry_at, before_at};
ghost use Rattle.counted_tree.specs.Digits.{digits};
ghost use Rattle.counted_tree.specs.Changes.{Lists, before as entries_before};
ghost use Rattle.counted_tree.specs.Internal.Table.{IsNewest};

use crate::entry::MAX_ELEMENTS;
use crate::kept::build::look;
use crate::kept::nodes::Nodes;
use crate::kept::packed_row::PackedRow;
use crate::kept::side::Side;
use crate::read::climb::way_to;
use crate::size::Size;
use crate::steps::Steps;

/// How much the entries before the one that the path leads to show.
pub fn rank_at(nodes: &Nodes, link: Option<u32>, path: &[Side], steps: &mut Steps) -> Size
    requires sound { AreSound nodes.now.nodes }
    requires link { IsLinkBelow (length nodes.now.nodes) link }
    requires there { IsSome (entry_at (tree_in nodes.now link) path.now) }
    requires few { length (entries (tree_in nodes.now link)) ≤ MAX_ELEMENTS }
    ensures size { IsSizeOf result (before_at (tree_in nodes.now link) path.now) }
    ensures cost { steps.new ≤ steps.old + height (tree_in nodes.now link) }
    ensures counted { IsCounted steps.old steps.new }
{
    let Some(at) = link else { unreachable!() };
    let node = look(nodes, at, steps);
    match path.split_first() {
        None => node.left_size,
        Some((Side::Left, rest)) => rank_at(nodes, node.left, rest, steps),
        Some((Side::Right, rest)) => {
            let more = rank_at(nodes, node.right, rest, steps);
            node.left_size.through(&node.entry, more)
        }
    }
}

/// How much the elements before one show in the newest tree.
pub fn rank_in(
    nodes: &Nodes,
    table: &[PackedRow],
    link: Option<u32>,
    elem: u32,
    steps: &mut Steps,
) -> Size
    requires sound { AreSound nodes.now.nodes }
    requires link { IsLinkBelow (length nodes.now.nodes) link }
    requires few { length (entries (tree_in nodes.now link)) ≤ MAX_ELEMENTS }
    requires newest { IsNewest table.now (tree_in nodes.now link) }
    requires there { Lists elem (entries (tree_in nodes.now link)) }
    ensures size { IsSizeOf result (entries_before elem (entries (tree_in nodes.now link))) }
    ensures few { (result.shown ≤ MAX_ELEMENTS) × (result.units ≤ 2 * MAX_ELEMENTS) }
    ensures cost { steps.new ≤ steps.old + 2 * digits (length (entries (tree_in nodes.now link))) }
    ensures counted { IsCounted steps.old steps.new }
{
    let path = way_to(table, elem);
    rank_at(nodes, link, path.as_slice(), steps)
}
