//! How far one comes past entries with a greater key: by the least keys of whole subtrees.
ghost use Rattle.std.specs.Prelude.{◌≡◌, ◌+◌, ◌*◌, ◌≤◌, length, true, None, IsSome, ◌<◌, IfSome};
ghost use Rattle.counted_tree.specs.Internal.Tree.{entries, height};
ghost use Rattle.counted_tree.specs.Internal.Arena.{IsLinkBelow, AreSound};
ghost use Rattle.counted_tree.specs.Internal.Change.{tree_in};
ghost use Rattle.counted_tree.specs.Internal.PathEntries.{entry_at, after_at, elem_at};
ghost use Rattle.counted_tree.specs.Greater.{passed, last_greater};
ghost use Rattle.counted_tree.specs.Internal.Stops.{all_greater, last_of, stop};
ghost use Rattle.counted_tree.specs.Steps.{IsCounted};
ghost use Rattle.counted_tree.specs.Internal.Counter.{CountsOn};
ghost use Rattle.counted_tree.specs.Internal.Table.{HasRow, IsKept, IsNewest};
ghost use Rattle.counted_tree.specs.Digits.{digits};
ghost use Rattle.counted_tree.specs.Changes.{Lists};

use crate::entry::MAX_ELEMENTS;
use crate::kept::build::look;
use crate::kept::nodes::Nodes;
use crate::kept::packed_row::PackedRow;
use crate::kept::side::Side;
use crate::read::climb::way_to;
use crate::steps::Steps;

// Whether each entry of a part of the newest tree has a greater key. At most one step.
fn are_greater(
    nodes: &Nodes,
    table: &[PackedRow],
    link: Option<u32>,
    key: u32,
    steps: &mut Steps,
) -> bool
    requires sound { AreSound nodes.now.nodes }
    requires link { IsLinkBelow (length nodes.now.nodes) link }
    requires row { HasRow table.now (tree_in nodes.now link) }
    ensures greater { result ≡ all_greater key (entries (tree_in nodes.now link)) }
    ensures cost { steps.new ≤ steps.old + 1 }
    ensures counts_on { CountsOn steps.old steps.new }
{
    let Some(at) = link else { return true };
    let node = look(nodes, at, steps);
    let row = table[node.entry.elem as usize].get();
    key < row.least
}

/// The last element of the tree, or the given one where the tree is empty.
pub fn last_in(
    nodes: &Nodes,
    link: Option<u32>,
    last: Option<u32>,
    steps: &mut Steps,
) -> Option<u32>
    requires sound { AreSound nodes.now.nodes }
    requires link { IsLinkBelow (length nodes.now.nodes) link }
    ensures last { result ≡ last_of last (entries (tree_in nodes.now link)) }
    ensures cost { steps.new ≤ steps.old + height (tree_in nodes.now link) }
    ensures counts_on { CountsOn steps.old steps.new }
{
    let Some(at) = link else { return last };
    let node = look(nodes, at, steps);
    last_in(nodes, node.right, Some(node.entry.elem), steps)
}

/// The last element that one passes in a part of the newest tree, from its first entry on, as long as the keys are greater; the given one
/// where there is none.
pub fn passed_in(
    nodes: &Nodes,
    table: &[PackedRow],
    link: Option<u32>,
    key: u32,
    last: Option<u32>,
    steps: &mut Steps,
) -> Option<u32>
    requires sound { AreSound nodes.now.nodes }
    requires link { IsLinkBelow (length nodes.now.nodes) link }
    requires kept { IsKept table.now (tree_in nodes.now link) }
    ensures last { result ≡ passed key last (entries (tree_in nodes.now link)) }
    ensures cost { steps.new ≤ steps.old + 2 * height (tree_in nodes.now link) }
    ensures counts_on { CountsOn steps.old steps.new }
    ensures counted { IsSome link → IsCounted steps.old steps.new }
{
    let Some(at) = link else { return last };
    let node = look(nodes, at, steps);
    if !are_greater(nodes, table, node.left, key, steps) {
        passed_in(nodes, table, node.left, key, last, steps)
    } else if node.entry.key <= key {
        last_in(nodes, node.left, last, steps)
    } else {
        passed_in(nodes, table, node.right, key, Some(node.entry.elem), steps)
    }
}

// The last element that one passes in the tree before one stops there, if one does.
fn stop_in(
    nodes: &Nodes,
    table: &[PackedRow],
    link: Option<u32>,
    key: u32,
    last: Option<u32>,
    steps: &mut Steps,
) -> Option<u32>
    requires sound { AreSound nodes.now.nodes }
    requires link { IsLinkBelow (length nodes.now.nodes) link }
    requires row { HasRow table.now (tree_in nodes.now link) }
    requires kept { IsKept table.now (tree_in nodes.now link) }
    ensures last { result ≡ stop key last (entries (tree_in nodes.now link)) }
    ensures cost { steps.new ≤ steps.old + 2 * height (tree_in nodes.now link) + 1 }
    ensures counts_on { CountsOn steps.old steps.new }
    ensures passed { all_greater key (entries (tree_in nodes.now link)) ≡ true → steps.new ≤ steps.old + 1 }
{
    if are_greater(nodes, table, link, key, steps) {
        None
    } else {
        passed_in(nodes, table, link, key, last, steps)
    }
}

/// The last element that one passes from the entry on that the path leads to, before one stops in the tree, if one does.
pub fn stop_at(
    nodes: &Nodes,
    table: &[PackedRow],
    link: Option<u32>,
    path: &[Side],
    key: u32,
    steps: &mut Steps,
) -> Option<u32>
    requires sound { AreSound nodes.now.nodes }
    requires link { IsLinkBelow (length nodes.now.nodes) link }
    requires kept { IsKept table.now (tree_in nodes.now link) }
    requires there { IsSome (entry_at (tree_in nodes.now link) path.now) }
    ensures last { result ≡ stop key (elem_at (tree_in nodes.now link) path.now) (after_at (tree_in nodes.now link) path.now) }
    ensures cost { steps.new ≤ steps.old + 4 * height (tree_in nodes.now link) }
    ensures counted { IsCounted steps.old steps.new }
    ensures passed { result ≡ None → steps.new ≤ steps.old + 2 * height (tree_in nodes.now link) }
{
    let Some(at) = link else { unreachable!() };
    let node = look(nodes, at, steps);
    match path.split_first() {
        None => stop_in(nodes, table, node.right, key, Some(node.entry.elem), steps),
        Some((Side::Right, rest)) => stop_at(nodes, table, node.right, rest, key, steps),
        Some((Side::Left, rest)) => match stop_at(nodes, table, node.left, rest, key, steps) {
            Some(last) => Some(last),
            None if node.entry.key <= key => last_in(nodes, node.left, None, steps),
            None => stop_in(nodes, table, node.right, key, Some(node.entry.elem), steps),
        },
    }
}

/// The last element that one passes in the newest tree from one on, or from before all others, as long as the keys are
/// greater.
pub fn last_greater_in(
    nodes: &Nodes,
    table: &[PackedRow],
    link: Option<u32>,
    before: Option<u32>,
    key: u32,
    steps: &mut Steps,
) -> Option<u32>
    requires sound { AreSound nodes.now.nodes }
    requires link { IsLinkBelow (length nodes.now.nodes) link }
    requires few { length (entries (tree_in nodes.now link)) ≤ MAX_ELEMENTS }
    requires newest { IsNewest table.now (tree_in nodes.now link) }
    requires there { IfSome before (λ e. Lists e (entries (tree_in nodes.now link))) }
    ensures last { result ≡ last_greater before key (entries (tree_in nodes.now link)) }
    ensures cost { steps.new ≤ steps.old + 6 * digits (length (entries (tree_in nodes.now link))) }
    ensures counted { 0 < length (entries (tree_in nodes.now link)) → IsCounted steps.old steps.new }
{
    let Some(elem) = before else {
        return passed_in(nodes, table, link, key, None, steps);
    };
    let path = way_to(table, elem);
    match stop_at(nodes, table, link, path.as_slice(), key, steps) {
        Some(last) => Some(last),
        None => last_in(nodes, link, None, steps),
    }
}
