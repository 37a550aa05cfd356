//! What the next of the operations that are asked for knows.
ghost use Rattle.std.specs.Prelude.{◌≡◌, ◌-◌, length, slice_get};
ghost use Rattle.std.specs.Option.{option_map_or};

use causal_clock::{Clock, Op};

/// The clock of the last of these operations, or where there is none the one before them.
#[inline(always)]
pub(crate) fn known_behind<'a>(before: &'a Clock, ops: &'a [Op]) -> &'a Clock
    ensures { result.now ≡ option_map_or (λ op. op.clock) (slice_get ops.now (length ops.now - 1)) before.now }
{
    match ops.last() {
        Some(last) => last.known(),
        None => before,
    }
}
