//! An operation that came before another one that it knows.
ghost use Rattle.std.specs.Prelude.{◌≡◌, IfOk, IfSome, true};
ghost use Rattle.opid.specs.Clocks.{is_next};

use causal_clock::{Clock, Op};
use holdback::Held;
use opid::Refusal;
use std::alloc::Global;

/// Holds an operation back, and takes it out again if just the operations are there that it waits for.
pub fn taken_if_ready(alloc: Global, op: Op, known: &Clock) -> Result<Option<Op>, Refusal>
    ensures { IfOk result (λ taken. IfSome taken (λ x. is_next x.site x.clock known.now ≡ true)) }
{
    let mut held = Held::new(alloc);
    held.offer(op)?;
    Ok(held.take_first_ready(known))
}
