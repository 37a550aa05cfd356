//! A row of the newest tree's table as it is kept: eight bytes.
ghost use Rattle.std.specs.Prelude.{◌≡◌, ◌^◌, ◌<◌, ◌≤◌, IfSome};
ghost use Rattle.counted_tree.specs.Internal.PackedRow.{above_of};

use crate::kept::above::Above;
use crate::kept::row::Row;
use crate::kept::side::Side;
use std::marker::Model;

// Each height is below this: 2^6.
const HEIGHTS: u32 = 64;

/// What an element hangs from, and the least key and the height of its subtree, side by side in one number.
#[derive(Drop)]
pub struct PackedRow {
    // 0 where it hangs from nothing, else twice the number of the element above, and 1 on its left side, 2 on its right one.
    above: u32,
    // The least key, and the height.
    least_and_height: u32,
}

const _: () = prove!(size_of::<PackedRow>() == 8);

impl Model for PackedRow {
    ghost use Rattle.counted_tree.specs.declared.kept.row.Row.{Row};

    ghost Value = { Row };

    ghost use Rattle.counted_tree.specs.Internal.PackedRow.{unpacked_row};

    ghost view = { unpacked_row };
}

impl PackedRow {
    /// A row, to be kept.
    pub fn new(row: Row) -> PackedRow
        requires above { IfSome row.above (λ a. a.elem < 2 ^ 17) }
        requires least { row.least ≤ 2 ^ 23 }
        requires height { row.height < 2 ^ 6 }
        ensures { result ≡ row }
    {
        PackedRow {
            above: kept_of(row.above),
            least_and_height: row.least * HEIGHTS + row.height,
        }
    }

    /// The row.
    pub fn get(&self) -> Row
        ensures { result ≡ self.now }
    {
        Row {
            above: above_of(self.above),
            least: self.least_and_height / HEIGHTS,
            height: self.least_and_height % HEIGHTS,
        }
    }
}

// The number that what one hangs from is kept as.
fn kept_of(above: Option<Above>) -> u32
    requires { IfSome above (λ a. a.elem < 2 ^ 17) }
    ensures { above_of result ≡ above }
{
    match above {
        None => 0,
        Some(above) => match above.side {
            Side::Left => above.elem * 2 + 1,
            Side::Right => above.elem * 2 + 2,
        },
    }
}

// What is kept as a number that one hangs from.
fn above_of(kept: u32) -> Option<Above>
    ensures { result ≡ above_of kept }
{
    if kept == 0 {
        return None;
    }
    let side = if (kept - 1) % 2 == 0 {
        Side::Left
    } else {
        Side::Right
    };
    Some(Above {
        elem: (kept - 1) / 2,
        side,
    })
}
