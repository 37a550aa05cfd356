//! The way from an element up to the top of the newest tree.
ghost use Rattle.std.specs.Prelude.{◌≤◌, List, length, reverse};
ghost use Rattle.counted_tree.specs.declared.kept.side.Side.{Side};
ghost use Rattle.counted_tree.specs.Internal.Table.{IsWayUp};

use crate::kept::packed_row::PackedRow;
use crate::kept::side::Side;
use arrayvec::ArrayVec;

/// No balanced tree of 131,072 elements has more levels.
pub const MAX_HEIGHT: usize = 25;

/// The way down to an element from the top: the climb from it, turned round. It looks at no node.
pub fn way_to(table: &[PackedRow], elem: u32) -> ArrayVec<Side, MAX_HEIGHT>
    requires { (up : List Side) × (length up ≤ MAX_HEIGHT) × IsWayUp table.now elem up }
    ensures { IsWayUp table.now elem (reverse result.items) }
{
    let mut path = ArrayVec::new();
    let mut at = elem;
    while let Some(above) = table[at as usize].get().above {
        path.push(above.side);
        at = above.elem;
    }
    path.reverse();
    path
}
