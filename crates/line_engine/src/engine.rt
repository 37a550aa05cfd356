//! The line engine: an answer for each line of the input, over any protocol, reader and writer.
ghost use Rattle.std.specs.Prelude.{◌≡◌, ◌⊎◌, ℕ, ◌+◌, ◌^◌, ◌<◌, ◌≤◌, List, [], ◌++◌, true, IfOk, IfErr, IsTrue};
ghost use Rattle.std.specs.Io.KnownBytes.{Appends, Consumes};
ghost use Rattle.opid.specs.declared.refusal.Refusal.TheVariants.{TooLong};
ghost use Rattle.room_model.specs.declared.reply.Reply.TheVariants.{No};
ghost use Rattle.wire_json.specs.Text.{text};
ghost use Rattle.line_engine.specs.AnsweredRequests.{AnswersRequest};
ghost use Rattle.line_engine.specs.ServedLines.{Serves, StartsNot};
ghost use Rattle.line_engine.specs.Calls.{for_a_block, of_bytes, CountsReads, CountsWrites};
ghost use Rattle.line_engine.specs.Counting.{Rises};
ghost use Rattle.line_engine.specs.Internal.Turns.{Turn, after_sending, SentOn, work};

use crate::counted::Counted;
use crate::fault::ServeFault;
use crate::fixed::refusal_line;
use crate::protocol::Protocol;
use crate::requests::Requests;
use crate::sink::Sink;
use crate::source::Source;
use crate::window::{Next, Window, next_line};
use opid::Refusal;
use room::Desk;
use std::alloc::Global;

// Answers one line and sends the answer by one write (docs/decisions, P6).
fn serve_line<P: Protocol, W: Sink>(
    alloc: Global,
    scratch: &mut P::Scratch,
    state: &mut P::State,
    line: &[u8],
    output: &mut Counted<W>,
) -> Result<(), ServeFault>
    requires ready { P.ready state.old }
    requires few_failed { output.old.failures < 2 ^ 63 }
    ensures ready { P.ready state.new }
    ensures sent { (text : List ℕ) × P.answers state.old line.now text state.new
        × SentOn (W.contents output.old.inner) (W.contents output.new.inner) text result }
    ensures counted { Rises 0 0 output.old.failures output.new.failures result }
    ensures writes { CountsWrites (of_bytes W.writes) output.old.inner output.old.failures output.new.inner output.new.failures }
{
    let Ok(made) = P::answer(alloc, scratch, state, line) else {
        return Err(ServeFault::Memory);
    };
    if output.write_all(made.as_bytes()) {
        Ok(())
    } else {
        Err(ServeFault::Write)
    }
}

// Sends the answer to a line that was too long.
fn refuse_long<W: Sink>(output: &mut Counted<W>) -> Result<(), ServeFault>
    requires few_failed { output.old.failures < 2 ^ 63 }
    ensures sent { SentOn (W.contents output.old.inner) (W.contents output.new.inner) (text (No TooLong)) result }
    ensures write { IfErr result (λ why. why ≡ ServeFault.Write) }
    ensures counted { Rises 0 0 output.old.failures output.new.failures result }
    ensures writes { CountsWrites (of_bytes W.writes) output.old.inner output.old.failures output.new.inner output.new.failures }
{
    if output.write_all(refusal_line(Refusal::TooLong).as_bytes()) {
        Ok(())
    } else {
        Err(ServeFault::Write)
    }
}

// One turn: reads the next line and serves it. `Ok(false)` at the input's end.
#[tactic(auto, using(crate::proofs::Making::writes_none))]
fn serve_next<P: Protocol, R: Source, W: Sink>(
    alloc: Global,
    scratch: &mut P::Scratch,
    window: &mut Window,
    state: &mut P::State,
    input: &mut Counted<R>,
    output: &mut Counted<W>,
) -> Result<bool, ServeFault>
    requires ready { P.ready state.old }
    requires few_reads_failed { input.old.failures < 2 ^ 63 }
    requires few_writes_failed { output.old.failures < 2 ^ 63 }
    ensures ready { P.ready state.new }
    ensures turn { (got : List ℕ) × (written : List ℕ)
        × Consumes (R.remaining input.old.inner) (R.remaining input.new.inner) got
        × Appends (W.contents output.old.inner) (W.contents output.new.inner) written
        × Turn P.answers state.old (window.old ++ got) (R.remaining input.new.inner) window.new written result state.new }
    ensures counts { Rises input.old.failures input.new.failures output.old.failures output.new.failures result }
    ensures reads { CountsReads (for_a_block R.reads) input.old.inner input.old.calls input.old.failures input.new.inner input.new.calls
        input.new.failures }
    ensures writes { CountsWrites (of_bytes W.writes) output.old.inner output.old.failures output.new.inner output.new.failures }
    ensures smaller { IfOk result (λ goes_on. IsTrue goes_on → work input.new.calls window.new < work input.old.calls window.old) }
{
    let Some(next) = next_line(P::LIMIT, window, input) else {
        return Err(ServeFault::Read);
    };
    match next {
        Next::Line(n) => {
            let sent = serve_line::<P, W>(alloc, scratch, state, &window.bytes()[..n], output);
            window.advance(n + 1);
            goes_on(sent, true)
        }
        Next::Long => goes_on(refuse_long(output), true),
        Next::Last(n) => {
            if n == 0 {
                return Ok(false);
            }
            goes_on(
                serve_line::<P, W>(alloc, scratch, state, window.bytes(), output),
                false,
            )
        }
        Next::LastLong => goes_on(refuse_long(output), false),
    }
}

// Whether the engine goes on, once an answer was sent.
fn goes_on(sent: Result<(), ServeFault>, more: bool) -> Result<bool, ServeFault>
    ensures { result ≡ after_sending sent more }
{
    match sent {
        Ok(()) => Ok(more),
        Err(why) => Err(why),
    }
}

/// Serves the input to its end, after the bytes that the window holds: cuts it at LF and answers each line with one
/// line, ended by LF, which is written before the next line is looked at. A last line without LF counts if it has a byte.
///
/// A line above the protocol's limit is answered by 29 and skipped to its LF, without being kept.
///
/// After `Ok` the input was at its end and every line was answered. After `Read` the answers to all whole lines that
/// were read were written. After `Write` some bytes of the last answer are missing, and its line was answered. After
/// `Memory` a line was answered, by no refusal, and nothing of its answer was written. A read that a signal interrupts is a
/// fault, and so is a write that takes nothing. The writer isn't flushed.
///
/// Reads into all that is free behind the bytes held, at least 65,536 bytes, and writes each answer in one call, where the
/// writer takes it whole. Takes what these calls and `Protocol::answer` take, a few steps for each byte, and memory for what the
/// protocol keeps and for one answer at a time.
pub fn serve<P: Protocol, R: Source, W: Sink>(
    alloc: Global,
    window: &mut Window,
    state: &mut P::State,
    input: &mut Counted<R>,
    output: &mut Counted<W>,
) -> Result<(), ServeFault>
    requires ready { P.ready state.old }
    requires few_reads_failed { input.old.failures < 2 ^ 63 }
    requires few_writes_failed { output.old.failures < 2 ^ 63 }
    ensures ready { P.ready state.new }
    ensures serves { (got : List ℕ) × (written : List ℕ)
        × Consumes (R.remaining input.old.inner) (R.remaining input.new.inner) got
        × Appends (W.contents output.old.inner) (W.contents output.new.inner) written
        × Serves P.answers state.old (window.old ++ got) (R.remaining input.new.inner) written result state.new }
    ensures counted { Rises input.old.failures input.new.failures output.old.failures output.new.failures result }
    ensures reads { CountsReads (for_a_block R.reads) input.old.inner input.old.calls input.old.failures input.new.inner input.new.calls
        input.new.failures }
    ensures writes { CountsWrites (of_bytes W.writes) output.old.inner output.old.failures output.new.inner output.new.failures }
{
    let mut scratch = P::scratch(alloc);
    'serving: loop {
        match serve_next::<P, R, W>(alloc, &mut scratch, window, state, input, output) {
            Ok(true) => {}
            Ok(false) => return Ok(()),
            Err(why) => return Err(why),
        }
    }
}

/// Serves requests to the input's end, as `serve` does, each answered by the desk.
///
/// A line is a request (`wire_json::read_request`); a refused one is answered by its refusal and makes no call. A line
/// of more than 65,536 bytes is answered by 29. A desk that is worn is told by 25; want of memory, at the desk or at the
/// reading of a request, by 26. After `Memory` nothing was read, or it ended as `serve` tells.
///
/// Takes a `Window`, and for each line the steps of `RequestReader::read`, of the desk's call and of `ReplyLine::new`, beside those
/// of `serve`.
#[tactic(auto, using(crate::proofs::Making::reads_none, crate::proofs::Making::writes_none))]
pub fn serve_lines<D: Desk, R: Source, W: Sink>(
    alloc: Global,
    desk: &mut D,
    input: &mut Counted<R>,
    output: &mut Counted<W>,
) -> Result<(), ServeFault>
    requires ready { D.ready desk.old }
    requires few_reads_failed { input.old.failures < 2 ^ 63 }
    requires few_writes_failed { output.old.failures < 2 ^ 63 }
    ensures ready { D.ready desk.new }
    ensures serves { (got : List ℕ) × (written : List ℕ)
        × Consumes (R.remaining input.old.inner) (R.remaining input.new.inner) got
        × Appends (W.contents output.old.inner) (W.contents output.new.inner) written
        × (StartsNot desk.old got written result desk.new
        ⊎ Serves (AnswersRequest D.step D.fault) desk.old got (R.remaining input.new.inner) written result desk.new) }
    ensures counted { Rises input.old.failures input.new.failures output.old.failures output.new.failures result }
    ensures reads { CountsReads (for_a_block R.reads) input.old.inner input.old.calls input.old.failures input.new.inner input.new.calls
        input.new.failures }
    ensures writes { CountsWrites (of_bytes W.writes) output.old.inner output.old.failures output.new.inner output.new.failures }
{
    let Ok(mut window) = Window::new(alloc) else {
        return Err(ServeFault::Memory);
    };
    serve::<Requests<D>, R, W>(alloc, &mut window, desk, input, output)
}
