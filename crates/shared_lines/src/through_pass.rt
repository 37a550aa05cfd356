//! The line engine over a room that threads share, through a pass that it is lent.
ghost use Rattle.std.specs.Prelude.{◌≡◌, ◌⊎◌, ℕ, ◌^◌, ◌<◌, List};
ghost use Rattle.std.specs.Io.KnownBytes.{Appends, Consumes};
ghost use Rattle.shared_room.specs.Views.{view, opening, IsPassOf};
ghost use Rattle.shared_room.specs.PassSteps.{pass_step, pass_fault};
ghost use Rattle.line_engine.specs.AnsweredRequests.{AnswersRequest};
ghost use Rattle.line_engine.specs.Calls.{for_a_block, of_bytes, CountsReads, CountsWrites};
ghost use Rattle.line_engine.specs.Counting.{Rises};
ghost use Rattle.line_engine.specs.ServedLines.{Serves, StartsNot};

use line_engine::{Counted, ServeFault, Sink, Source, serve_lines};
use shared_room::{Pass, PassDesk, SharedRoom};
use std::alloc::Global;
use std::sync::Wait;

/// Serves requests to the input's end, as `serve_lines` does, each call at its turn of the shared room, through the pass. So
/// the answers to the calls are replies in one legal history, one call after another; once the pass has no draw left, each
/// further call is answered by 25. Waits for its turn of the room. It costs what `serve_lines` costs.
pub fn serve_through_pass<H: Wait, R: Source, W: Sink>(
    rt: &H,
    alloc: Global,
    room: &SharedRoom,
    pass: &mut Pass,
    input: &mut Counted<R>,
    output: &mut Counted<W>,
) -> Result<(), ServeFault>
    requires pass { IsPassOf room.now pass.old }
    requires few_reads_failed { input.old.failures < 2 ^ 63 }
    requires few_writes_failed { output.old.failures < 2 ^ 63 }
    ensures pass { IsPassOf room.now pass.new }
    ensures serves { (got : List ℕ) × (written : List ℕ)
        × Consumes (R.remaining input.old.inner) (R.remaining input.new.inner) got
        × Appends (W.contents output.old.inner) (W.contents output.new.inner) written
        × (StartsNot (view pass.old) got written result (view pass.new)
        ⊎ Serves (AnswersRequest (pass_step (opening room.now)) pass_fault) (view pass.old) got (R.remaining input.new.inner) written result
        (view pass.new)) }
    ensures counted { Rises input.old.failures input.new.failures output.old.failures output.new.failures result }
    ensures reads { CountsReads (for_a_block R.reads) input.old.inner input.old.calls input.old.failures input.new.inner input.new.calls
        input.new.failures }
    ensures writes { CountsWrites (of_bytes W.writes) output.old.inner output.old.failures output.new.inner output.new.failures }
{
    let mut desk = PassDesk::new(rt, room, pass);
    serve_lent(alloc, &mut desk, input, output)
}

// Serves over a desk that is lent a pass, and keeps the room and the reference.
fn serve_lent<H: Wait, R: Source, W: Sink>(
    alloc: Global,
    desk: &mut PassDesk<'_, H>,
    input: &mut Counted<R>,
    output: &mut Counted<W>,
) -> Result<(), ServeFault>
    requires pass { IsPassOf desk.old.room.now desk.old.pass.now }
    requires few_reads_failed { input.old.failures < 2 ^ 63 }
    requires few_writes_failed { output.old.failures < 2 ^ 63 }
    ensures lent { desk.new.pass.ghost_name ≡ desk.old.pass.ghost_name }
    ensures pass { IsPassOf desk.old.room.now desk.new.pass.now }
    ensures serves { (got : List ℕ) × (written : List ℕ)
        × Consumes (R.remaining input.old.inner) (R.remaining input.new.inner) got
        × Appends (W.contents output.old.inner) (W.contents output.new.inner) written
        × (StartsNot (view desk.old.pass.now) got written result (view desk.new.pass.now)
        ⊎ Serves (AnswersRequest (pass_step (opening desk.old.room.now)) pass_fault) (view desk.old.pass.now) got
        (R.remaining input.new.inner) written result (view desk.new.pass.now)) }
    ensures counted { Rises input.old.failures input.new.failures output.old.failures output.new.failures result }
    ensures reads { CountsReads (for_a_block R.reads) input.old.inner input.old.calls input.old.failures input.new.inner input.new.calls
        input.new.failures }
    ensures writes { CountsWrites (of_bytes W.writes) output.old.inner output.old.failures output.new.inner output.new.failures }
{
    serve_lines(alloc, desk, input, output)
}
