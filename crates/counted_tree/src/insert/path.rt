//! A further entry, by copies of the nodes on the way to its place. Of a node only the number is kept on the way down, and it is read
//! again on the way up, which costs less than to keep it.
ghost use Rattle.std.specs.Prelude.{◌≡◌, Option, ◌+◌, ◌-◌, ◌*◌, ◌<◌, ◌≤◌, [], ◌∷◌, List, length, IsSome, Some};
ghost use Rattle.counted_tree.specs.declared.kept.row.Row.{Row};
ghost use Rattle.counted_tree.specs.declared.kept.side.Side.{Side};
ghost use Rattle.counted_tree.specs.Internal.Keys.{IsKnown};
ghost use Rattle.counted_tree.specs.declared.insert.level.Grown.TheVariants.{Settled};
ghost use Rattle.counted_tree.specs.Internal.Size.{size_of};
ghost use Rattle.counted_tree.specs.Internal.Tree.{Tree, entries, height};
ghost use Rattle.counted_tree.specs.Internal.Arena.{IsLinkBelow, AreSound};
ghost use Rattle.counted_tree.specs.declared.kept.above.Above.{Above};
ghost use Rattle.counted_tree.specs.Internal.Change.{tree_in, Adds};
ghost use Rattle.counted_tree.specs.Internal.Growth.{IsGrown};
ghost use Rattle.counted_tree.specs.Internal.PathEntries.{entry_at};
ghost use Rattle.counted_tree.specs.Internal.Insertion.{IsFit, IsInserted, IsLift, IsRisen};
ghost use Rattle.counted_tree.specs.Internal.Store.{Store};
ghost use Rattle.counted_tree.specs.Internal.GrownTree.{grown_link, IsTold};
ghost use Rattle.counted_tree.specs.Internal.Table.{AreOwn, IsKept, HasRow, PointsTo, Hangs};
ghost use Rattle.counted_tree.specs.Steps.{IsCounted};
ghost use Rattle.counted_tree.specs.Internal.Counter.{CountsOn};

use crate::entry::{Entry, MAX_ELEMENTS};
use crate::insert::branch::Branch;
use crate::insert::fork::fork;
use crate::insert::level::{Grown, lift_left, lift_right};
use crate::insert::way::numbers_along;
use crate::kept::build::look;
use crate::kept::nodes::Nodes;
use crate::kept::packed_row::PackedRow;
use crate::kept::side::Side;
use crate::read::climb::MAX_HEIGHT;
use crate::size::Size;
use crate::steps::Steps;

/// The tree with a further entry before all others.
pub fn insert_first(
    nodes: &mut Nodes,
    table: &mut [PackedRow],
    link: Option<u32>,
    entry: &Entry,
    steps: &mut Steps,
) -> Grown
    requires sound { AreSound nodes.old.nodes }
    requires link { IsLinkBelow (length nodes.old.nodes) link }
    requires reserved { height (tree_in nodes.old link) + 6 ≤ nodes.old.reserved_nodes }
    requires known { IsKnown nodes.old.keys_and_widths entry.now }
    requires few { length (entries (tree_in nodes.old link)) < MAX_ELEMENTS }
    requires own { AreOwn (length table.old) (entry.now ∷ entries (tree_in nodes.old link)) }
    requires kept { IsKept table.old (tree_in nodes.old link) }
    requires row { HasRow table.old (tree_in nodes.old link) }
    ensures adds { Adds nodes.old nodes.new (height (tree_in nodes.old link) + 3) }
    ensures told { (a : Option Above) → PointsTo table.old (tree_in nodes.old link) a
        → IsTold nodes.new table.new a (tree_in nodes.old link) result }
    ensures lists { entries (tree_in nodes.new (grown_link result)) ≡ entry.now ∷ entries (tree_in nodes.old link) }
    ensures grown { IsGrown (tree_in nodes.old link) (tree_in nodes.new (grown_link result))
        (length nodes.new.nodes - length nodes.old.nodes) }
    ensures hangs { Hangs table.old table.new (tree_in nodes.new (grown_link result)) }
    ensures cost { steps.new + 4 * length nodes.old.nodes ≤ steps.old + 4 * length nodes.new.nodes }
    ensures counts_on { CountsOn steps.old steps.new }
    ensures counted { 0 < length (entries (tree_in nodes.old link)) → IsCounted steps.old steps.new }
{
    let Some(at) = link else {
        let top = fork(
            nodes,
            table,
            Branch::empty(),
            Size::none(),
            *entry,
            Branch::empty(),
        );
        return Grown::Loose(top);
    };
    let below = look(nodes, at, steps).left;
    let left = insert_first(nodes, table, below, entry, steps);
    let node = look(nodes, at, steps);
    lift_left(nodes, table, at, node, left, entry, steps)
}

/// A tree with a further entry.
#[derive(Clone, Copy)]
pub struct Inserted {
    pub top: Grown,
    /// How much the entries before the new one show.
    pub rank: Size,
}

// The tree of a node with a further entry right after its own.
fn insert_behind(
    nodes: &mut Nodes,
    table: &mut [PackedRow],
    at: u32,
    entry: &Entry,
    steps: &mut Steps,
) -> Inserted
    requires sound { AreSound nodes.old.nodes }
    requires at { at < length nodes.old.nodes }
    requires known { IsKnown nodes.old.keys_and_widths entry.now }
    requires fit { IsFit nodes.old.reserved_nodes table.old (tree_in nodes.old (Some at)) [] entry.now }
    ensures inserted { IsInserted nodes.old nodes.new table.old table.new (tree_in nodes.old (Some at)) [] entry.now result }
    ensures cost { steps.new + 4 * length nodes.old.nodes ≤ steps.old + 4 * length nodes.new.nodes }
    ensures counted { IsCounted steps.old steps.new }
{
    let below = look(nodes, at, steps).right;
    let right = insert_first(nodes, table, below, entry, steps);
    let node = look(nodes, at, steps);
    let rank = node.left_size.through(&node.entry, Size::none());
    let top = lift_right(nodes, table, at, node, right, entry, steps);
    Inserted { top, rank }
}

// The tree of a node, once one of its sides has the further entry.
#[inline(always)]
fn lift(
    nodes: &mut Nodes,
    table: &mut [PackedRow],
    at: u32,
    side: Side,
    below: Inserted,
    entry: &Entry,
    steps: &mut Steps,
) -> Inserted
    requires { (a : Store) × (tb : List Row) × (path : List Side) × IsLift a nodes.old tb table.old at side path entry.now below }
    ensures inserted { (a : Store) → (tb : List Row) → (path : List Side) → IsLift a nodes.old tb table.old at side path entry.now below
        → IsInserted a nodes.new tb table.new (tree_in a (Some at)) (side ∷ path) entry.now result }
    ensures cost { steps.new + 4 * length nodes.old.nodes + 1 ≤ steps.old + 4 * length nodes.new.nodes }
    ensures counts_on { CountsOn steps.old steps.new }
{
    let node = look(nodes, at, steps);
    match side {
        Side::Left => {
            let top = lift_left(nodes, table, at, node, below.top, entry, steps);
            Inserted {
                top,
                rank: below.rank,
            }
        }
        Side::Right => {
            let rank = node.left_size.through(&node.entry, below.rank);
            let top = lift_right(nodes, table, at, node, below.top, entry, steps);
            Inserted { top, rank }
        }
    }
}

// The same over a side that is settled: the number of the new top, and how many elements and units the entries before the new one show,
// which as one `Size` would be packed into a register and out again at each level. `below` is the number of the side's top, and `more`
// what the new entry shows. The table stays as it is.
#[inline(always)]
fn step_settled(
    nodes: &mut Nodes,
    at: u32,
    side: Side,
    below: u32,
    rank: Size,
    more: Size,
    steps: &mut Steps,
) -> (u32, u32, u32)
    requires { (a : Store) × (tb : List Row) × (mid : List Row) × (path : List Side) × (x : Entry) × (more ≡ size_of x)
        × IsLift a nodes.old tb mid at side path x (record { top = Settled below; rank = rank }) }
    ensures inserted { (a : Store) → (tb : List Row) → (mid : List Row) → (path : List Side) → (x : Entry) → more ≡ size_of x
        → IsLift a nodes.old tb mid at side path x (record { top = Settled below; rank = rank })
        → IsInserted a nodes.new tb mid (tree_in a (Some at)) (side ∷ path) x (record {
          top = Settled result.0;
          rank = record { shown = result.1; units = result.2 };
        }) }
    ensures cost { steps.new + 4 * length nodes.old.nodes + 1 ≤ steps.old + 4 * length nodes.new.nodes }
    ensures counts_on { CountsOn steps.old steps.new }
{
    let node = look(nodes, at, steps);
    match side {
        Side::Left => {
            let size = node.left_size.plus(more);
            let top = nodes.push_with_left(at, below, size);
            (top, rank.shown, rank.units)
        }
        Side::Right => {
            let past = node.left_size.through(&node.entry, rank);
            let top = nodes.push_with_right(at, below);
            (top, past.shown, past.units)
        }
    }
}

// The whole tree, over a part of it that has the further entry and is settled. As many steps of the path as there are `levels` above it
// lead to the part, and `part` is its top's number. Only such a number and the rank go from level to level, so both stay in registers.
#[inline(never)]
fn lift_settled(
    nodes: &mut Nodes,
    path: &[Side],
    numbers: &[u32],
    levels: usize,
    part: u32,
    rank: Size,
    entry: &Entry,
    steps: &mut Steps,
) -> Inserted
    requires count { length path.now < length numbers.now }
    requires levels { levels ≤ length path.now }
    requires risen { (a : Store) × (tb : List Row) × (mid : List Row) × (t : Tree)
        × IsRisen a nodes.old tb mid t path.now numbers.now entry.now levels (record { top = Settled part; rank = rank }) }
    ensures inserted { (a : Store) → (tb : List Row) → (mid : List Row) → (t : Tree)
        → IsRisen a nodes.old tb mid t path.now numbers.now entry.now levels (record { top = Settled part; rank = rank })
        → IsInserted a nodes.new tb mid t path.now entry.now result }
    ensures cost { steps.new + 4 * length nodes.old.nodes + levels ≤ steps.old + 4 * length nodes.new.nodes }
    ensures counts_on { CountsOn steps.old steps.new }
{
    let more = Size::of(entry);
    let mut level = levels;
    let mut top = part;
    let mut shown = rank.shown;
    let mut units = rank.units;
    while level > 0 {
        level -= 1;
        let before = Size { shown, units };
        let made = step_settled(nodes, numbers[level], path[level], top, before, more, steps);
        top = made.0;
        shown = made.1;
        units = made.2;
    }
    Inserted {
        top: Grown::Settled(top),
        rank: Size { shown, units },
    }
}

/// The tree with a further entry right after the one that the path leads to.
pub fn insert_at(
    nodes: &mut Nodes,
    table: &mut [PackedRow],
    link: Option<u32>,
    path: &[Side],
    entry: &Entry,
    steps: &mut Steps,
) -> Inserted
    requires sound { AreSound nodes.old.nodes }
    requires link { IsLinkBelow (length nodes.old.nodes) link }
    requires known { IsKnown nodes.old.keys_and_widths entry.now }
    requires there { IsSome (entry_at (tree_in nodes.old link) path.now) }
    requires short { length path.now < MAX_HEIGHT }
    requires fit { IsFit nodes.old.reserved_nodes table.old (tree_in nodes.old link) path.now entry.now }
    ensures inserted { IsInserted nodes.old nodes.new table.old table.new (tree_in nodes.old link) path.now entry.now result }
    ensures cost { steps.new + 4 * length nodes.old.nodes ≤ steps.old + 4 * length nodes.new.nodes }
    ensures counted { IsCounted steps.old steps.new }
{
    let Some(top) = link else { unreachable!() };
    let numbers = numbers_along(nodes, top, path, steps);
    let numbers = numbers.as_slice();
    let mut level = path.len();
    let mut made = insert_behind(nodes, table, numbers[level], entry, steps);
    while level > 0 {
        if let Grown::Settled(part) = made.top {
            return lift_settled(nodes, path, numbers, level, part, made.rank, entry, steps);
        }
        level -= 1;
        made = lift(
            nodes,
            table,
            numbers[level],
            path[level],
            made,
            entry,
            steps,
        );
    }
    made
}
