//! The tree of a node, once one of its sides has grown by an entry. What makes it stands in the body of who asks for it, so that only what
//! they use of the node is unpacked: a copy differs in one side, and the whole node is read once more only where it is built anew.
ghost use Rattle.std.specs.Prelude.{◌≡◌, ℕ, ◌+◌, ◌-◌, ◌*◌, ◌<◌, ◌≤◌, ◌∷◌, ◌++◌, length, slice_get, Option, Some};
ghost use Rattle.counted_tree.specs.declared.kept.above.Above.{Above};
ghost use Rattle.counted_tree.specs.declared.insert.level.Grown.TheVariants.{Settled, Loose};
ghost use Rattle.counted_tree.specs.declared.kept.side.Side.TheVariants.{Left, Right};
ghost use Rattle.counted_tree.specs.Internal.Size.{IsSizeOf};
ghost use Rattle.counted_tree.specs.Internal.Tree.{entries, height};
ghost use Rattle.counted_tree.specs.Internal.Arena.{IsSoundNode, AreSound, trees, tree_of};
ghost use Rattle.counted_tree.specs.Internal.Branch.{IsBranch};
ghost use Rattle.counted_tree.specs.Internal.Change.{tree_in, Adds};
ghost use Rattle.counted_tree.specs.Internal.Growth.{Gains, MayRise, IsGrown};
ghost use Rattle.counted_tree.specs.Internal.GrownTree.{grown_link, IsTold};
ghost use Rattle.counted_tree.specs.Internal.Table.{HasRow, PointsTo, IsReady, Hangs};
ghost use Rattle.counted_tree.specs.Internal.Counter.{CountsOn};

use crate::entry::{Entry, MAX_ELEMENTS};
use crate::insert::branch::{Branch, branch_of};
use crate::insert::fork::hang;
use crate::insert::rotation::rebuild;
use crate::kept::above::Above;
use crate::kept::build::{copy_left, copy_right, look};
use crate::kept::node::Node;
use crate::kept::nodes::Nodes;
use crate::kept::packed_row::PackedRow;
use crate::kept::row::Row;
use crate::kept::side::Side;
use crate::size::Size;
use crate::steps::Steps;

/// Once the tree is settled, no row of the table above changes any more: each node above is copied with another link, and that is all.
#[derive(Clone, Copy)]
pub enum Grown {
    /// The top node of a tree that is as high as before, with the same least key, and of whose top the table has the row.
    Settled(u32),
    /// A tree whose top has still to be hung.
    Loose(Branch),
}

// A tree that is as high as this row says, which is that of its top before it had the entry: the row is right still, unless the new
// key is less than all others.
fn settle(number: u32, elem: u32, row: Row, entry: &Entry) -> Grown
    ensures link { grown_link result ≡ Some number }
    ensures settled { row.least ≤ entry.now.key → result ≡ Settled number }
    ensures loose { entry.now.key < row.least
        → result ≡ Loose (record { link = Some number; elem = elem; least = entry.now.key; height = row.height }) }
{
    if row.least <= entry.key {
        return Grown::Settled(number);
    }
    Grown::Loose(Branch {
        link: Some(number),
        elem,
        least: entry.key,
        height: row.height,
    })
}

// The tree of a node whose left side has grown by an entry and isn't settled. The other side is looked at only where the left
// one is now as high as the whole was: else the whole stays as high as it was, and only the left side has to be hung.
#[inline(always)]
fn grow_left(
    nodes: &mut Nodes,
    table: &mut [PackedRow],
    at: u32,
    node: Node,
    left: Branch,
    left_size: Size,
    entry: &Entry,
    steps: &mut Steps,
) -> Grown
    requires sound { AreSound nodes.old.nodes }
    requires at { slice_get nodes.old.nodes at ≡ Some node }
    requires node { IsSoundNode (trees nodes.old.nodes) node }
    requires reserved { 3 ≤ nodes.old.reserved_nodes }
    requires left { IsBranch nodes.old left }
    requires size { IsSizeOf left_size (entries (tree_in nodes.old left.link)) }
    requires gains { Gains entry.now (entries (tree_in nodes.old node.left)) (entries (tree_in nodes.old left.link)) }
    requires rises { MayRise (tree_in nodes.old node.left) (tree_in nodes.old left.link) }
    requires few { length (entries (tree_in nodes.old left.link)) + length (entries (tree_in nodes.old node.right)) < MAX_ELEMENTS }
    requires row { HasRow table.old (tree_of (trees nodes.old.nodes) node) }
    requires other { PointsTo table.old (tree_in nodes.old node.right) (Some (record { elem = node.entry.elem; side = Right })) }
    requires ready { IsReady table.old (tree_in nodes.old left.link) node.entry (tree_in nodes.old node.right) }
    ensures adds { Adds nodes.old nodes.new 3 }
    ensures told { (a : Option Above) → PointsTo table.old (tree_of (trees nodes.old.nodes) node) a
        → IsTold nodes.new table.new a (tree_of (trees nodes.old.nodes) node) result }
    ensures lists { entries (tree_in nodes.new (grown_link result))
        ≡ entries (tree_in nodes.old left.link) ++ node.entry ∷ entries (tree_in nodes.old node.right) }
    ensures grown { (made : ℕ) → IsGrown (tree_in nodes.old node.left) (tree_in nodes.old left.link) made
        → IsGrown (tree_of (trees nodes.old.nodes) node) (tree_in nodes.new (grown_link result))
        (made + (length nodes.new.nodes - length nodes.old.nodes)) }
    ensures hangs { Hangs table.old table.new (tree_in nodes.new (grown_link result)) }
    ensures cost { steps.new + 4 * length nodes.old.nodes + 2 ≤ steps.old + 4 * length nodes.new.nodes }
    ensures counts_on { CountsOn steps.old steps.new }
{
    let row = table[node.entry.elem as usize].get();
    if left.height >= row.height {
        // Read again, which costs less than to keep all of it.
        let node = look(nodes, at, steps);
        let right = branch_of(nodes, table, node.right, steps);
        return Grown::Loose(rebuild(nodes, table, left, left_size, node.entry, right, steps));
    }
    let on_left = Above {
        elem: node.entry.elem,
        side: Side::Left,
    };
    // A side that has grown isn't empty.
    let Some(top) = left.link else { unreachable!() };
    let number = copy_left(nodes, at, node, top, left_size);
    hang(table, left, Some(on_left));
    settle(number, node.entry.elem, row, entry)
}

// The tree of a node whose right side has grown by an entry and isn't settled. The other side is looked at only where the right
// one is now as high as the whole was: else the whole stays as high as it was, and only the right side has to be hung.
#[inline(always)]
fn grow_right(
    nodes: &mut Nodes,
    table: &mut [PackedRow],
    at: u32,
    node: Node,
    right: Branch,
    entry: &Entry,
    steps: &mut Steps,
) -> Grown
    requires sound { AreSound nodes.old.nodes }
    requires at { slice_get nodes.old.nodes at ≡ Some node }
    requires node { IsSoundNode (trees nodes.old.nodes) node }
    requires reserved { 3 ≤ nodes.old.reserved_nodes }
    requires right { IsBranch nodes.old right }
    requires gains { Gains entry.now (entries (tree_in nodes.old node.right)) (entries (tree_in nodes.old right.link)) }
    requires rises { MayRise (tree_in nodes.old node.right) (tree_in nodes.old right.link) }
    requires few { length (entries (tree_in nodes.old node.left)) + length (entries (tree_in nodes.old right.link)) < MAX_ELEMENTS }
    requires row { HasRow table.old (tree_of (trees nodes.old.nodes) node) }
    requires other { PointsTo table.old (tree_in nodes.old node.left) (Some (record { elem = node.entry.elem; side = Left })) }
    requires ready { IsReady table.old (tree_in nodes.old node.left) node.entry (tree_in nodes.old right.link) }
    ensures adds { Adds nodes.old nodes.new 3 }
    ensures told { (a : Option Above) → PointsTo table.old (tree_of (trees nodes.old.nodes) node) a
        → IsTold nodes.new table.new a (tree_of (trees nodes.old.nodes) node) result }
    ensures lists { entries (tree_in nodes.new (grown_link result))
        ≡ entries (tree_in nodes.old node.left) ++ node.entry ∷ entries (tree_in nodes.old right.link) }
    ensures grown { (made : ℕ) → IsGrown (tree_in nodes.old node.right) (tree_in nodes.old right.link) made
        → IsGrown (tree_of (trees nodes.old.nodes) node) (tree_in nodes.new (grown_link result))
        (made + (length nodes.new.nodes - length nodes.old.nodes)) }
    ensures hangs { Hangs table.old table.new (tree_in nodes.new (grown_link result)) }
    ensures cost { steps.new + 4 * length nodes.old.nodes + 2 ≤ steps.old + 4 * length nodes.new.nodes }
    ensures counts_on { CountsOn steps.old steps.new }
{
    let row = table[node.entry.elem as usize].get();
    if right.height >= row.height {
        // Read again, which costs less than to keep all of it.
        let node = look(nodes, at, steps);
        let left = branch_of(nodes, table, node.left, steps);
        return Grown::Loose(rebuild(nodes, table, left, node.left_size, node.entry, right, steps));
    }
    let on_right = Above {
        elem: node.entry.elem,
        side: Side::Right,
    };
    // A side that has grown isn't empty.
    let Some(top) = right.link else {
        unreachable!()
    };
    let number = copy_right(nodes, at, node, top);
    hang(table, right, Some(on_right));
    settle(number, node.entry.elem, row, entry)
}

/// The tree of a node whose left side has grown by an entry. Over a side that is settled only the copy is made.
#[inline(always)]
pub fn lift_left(
    nodes: &mut Nodes,
    table: &mut [PackedRow],
    at: u32,
    node: Node,
    left: Grown,
    entry: &Entry,
    steps: &mut Steps,
) -> Grown
    requires sound { AreSound nodes.old.nodes }
    requires at { slice_get nodes.old.nodes at ≡ Some node }
    requires node { IsSoundNode (trees nodes.old.nodes) node }
    requires reserved { 3 ≤ nodes.old.reserved_nodes }
    requires left { IsTold nodes.old table.old (Some (record { elem = node.entry.elem; side = Left }))
        (tree_in nodes.old node.left) left }
    requires gains { Gains entry.now (entries (tree_in nodes.old node.left)) (entries (tree_in nodes.old (grown_link left))) }
    requires rises { MayRise (tree_in nodes.old node.left) (tree_in nodes.old (grown_link left)) }
    requires few { length (entries (tree_in nodes.old (grown_link left))) + length (entries (tree_in nodes.old node.right)) < MAX_ELEMENTS }
    requires row { HasRow table.old (tree_of (trees nodes.old.nodes) node) }
    requires other { PointsTo table.old (tree_in nodes.old node.right) (Some (record { elem = node.entry.elem; side = Right })) }
    requires ready { IsReady table.old (tree_in nodes.old (grown_link left)) node.entry (tree_in nodes.old node.right) }
    ensures adds { Adds nodes.old nodes.new 3 }
    ensures told { (a : Option Above) → PointsTo table.old (tree_of (trees nodes.old.nodes) node) a
        → IsTold nodes.new table.new a (tree_of (trees nodes.old.nodes) node) result }
    ensures lists { entries (tree_in nodes.new (grown_link result))
        ≡ entries (tree_in nodes.old (grown_link left)) ++ node.entry ∷ entries (tree_in nodes.old node.right) }
    ensures grown { (made : ℕ) → IsGrown (tree_in nodes.old node.left) (tree_in nodes.old (grown_link left)) made
        → IsGrown (tree_of (trees nodes.old.nodes) node) (tree_in nodes.new (grown_link result))
        (made + (length nodes.new.nodes - length nodes.old.nodes)) }
    ensures hangs { Hangs table.old table.new (tree_in nodes.new (grown_link result)) }
    ensures cost { steps.new + 4 * length nodes.old.nodes + 2 ≤ steps.old + 4 * length nodes.new.nodes }
    ensures counts_on { CountsOn steps.old steps.new }
{
    let left_size = node.left_size.plus(Size::of(entry));
    match left {
        Grown::Settled(number) => {
            let top = copy_left(nodes, at, node, number, left_size);
            Grown::Settled(top)
        }
        Grown::Loose(branch) => {
            grow_left(nodes, table, at, node, branch, left_size, entry, steps)
        }
    }
}

/// The tree of a node whose right side has grown by an entry. Over a side that is settled only the copy is made.
#[inline(always)]
pub fn lift_right(
    nodes: &mut Nodes,
    table: &mut [PackedRow],
    at: u32,
    node: Node,
    right: Grown,
    entry: &Entry,
    steps: &mut Steps,
) -> Grown
    requires sound { AreSound nodes.old.nodes }
    requires at { slice_get nodes.old.nodes at ≡ Some node }
    requires node { IsSoundNode (trees nodes.old.nodes) node }
    requires reserved { 3 ≤ nodes.old.reserved_nodes }
    requires right { IsTold nodes.old table.old (Some (record { elem = node.entry.elem; side = Right }))
        (tree_in nodes.old node.right) right }
    requires gains { Gains entry.now (entries (tree_in nodes.old node.right)) (entries (tree_in nodes.old (grown_link right))) }
    requires rises { MayRise (tree_in nodes.old node.right) (tree_in nodes.old (grown_link right)) }
    requires few { length (entries (tree_in nodes.old node.left)) + length (entries (tree_in nodes.old (grown_link right))) < MAX_ELEMENTS }
    requires row { HasRow table.old (tree_of (trees nodes.old.nodes) node) }
    requires other { PointsTo table.old (tree_in nodes.old node.left) (Some (record { elem = node.entry.elem; side = Left })) }
    requires ready { IsReady table.old (tree_in nodes.old node.left) node.entry (tree_in nodes.old (grown_link right)) }
    ensures adds { Adds nodes.old nodes.new 3 }
    ensures told { (a : Option Above) → PointsTo table.old (tree_of (trees nodes.old.nodes) node) a
        → IsTold nodes.new table.new a (tree_of (trees nodes.old.nodes) node) result }
    ensures lists { entries (tree_in nodes.new (grown_link result))
        ≡ entries (tree_in nodes.old node.left) ++ node.entry ∷ entries (tree_in nodes.old (grown_link right)) }
    ensures grown { (made : ℕ) → IsGrown (tree_in nodes.old node.right) (tree_in nodes.old (grown_link right)) made
        → IsGrown (tree_of (trees nodes.old.nodes) node) (tree_in nodes.new (grown_link result))
        (made + (length nodes.new.nodes - length nodes.old.nodes)) }
    ensures hangs { Hangs table.old table.new (tree_in nodes.new (grown_link result)) }
    ensures cost { steps.new + 4 * length nodes.old.nodes + 2 ≤ steps.old + 4 * length nodes.new.nodes }
    ensures counts_on { CountsOn steps.old steps.new }
{
    match right {
        Grown::Settled(number) => {
            let top = copy_right(nodes, at, node, number);
            Grown::Settled(top)
        }
        Grown::Loose(branch) => grow_right(nodes, table, at, node, branch, entry, steps),
    }
}
