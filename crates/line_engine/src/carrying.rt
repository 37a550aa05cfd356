//! Carries operations from a desk to a desk.
ghost use Rattle.std.specs.Prelude.{◌≡◌, ℕ, ◌<◌, ◌≤◌, Result, length};
ghost use Rattle.room_model.specs.declared.reply.Reply.{Reply};
ghost use Rattle.room_model.specs.declared.desk_fault.DeskFault.{DeskFault};
ghost use Rattle.room_model.specs.declared.call.Call.TheVariants as calls;
ghost use Rattle.line_engine.specs.Carrying.{Calls, Hands, HandsTold, carried, is_refused_as_full};

use opid::{MAX_COUNT, MAX_OPERATIONS, Refusal};
use room::{Call, Desk, DeskFault, Operations, Outcome, Outcomes, Reply};

// Whether an operation is to be handed over again.
fn is_refused_as_full(outcome: Outcome) -> bool
    ensures { result ≡ is_refused_as_full outcome }
{
    matches!(outcome, Outcome::No(Refusal::Full | Refusal::HoldFull))
}

// How many outcomes there are before the first that was refused as full.
fn carried_by(outcomes: &Outcomes) -> usize
    ensures count { result ≡ carried outcomes.now }
    ensures within { result ≤ length outcomes.now }
{
    outcomes
        .as_slice()
        .iter()
        .take_while(|o| !is_refused_as_full(**o))
        .count()
}

// Puts the operations in one call, if there are any.
fn hand<B: Desk>(b: &mut B, after: u32, ops: Operations) -> Result<u32, DeskFault>
    requires ready { B.ready b.old }
    requires place { 0 < length ops → after ≤ MAX_OPERATIONS }
    ensures ready { B.ready b.new }
    ensures hands { Hands B.step B.fault b.old after ops result b.new }
{
    if ops.as_slice().is_empty() {
        return Ok(after);
    }
    match b.call(Call::Put(ops)) {
        Ok(Reply::Put(outcomes)) => Ok(after + carried_by(&outcomes) as u32),
        Ok(_) => Ok(after),
        Err(why) => Err(why),
    }
}

/// Asks `a` for at most 64 operations of its room's log from number `after` on, and puts them at `b` in one call. Tells
/// from which number to go on: `after`, and one more for each outcome before the first `Full` or `HoldFull`.
///
/// It is `after` where there were none or `a` refused, and then `b` isn't asked; and where `b` refused the put. A fault is
/// that of the desk that told it. Where it is `b`'s, `a` has answered. Takes at most one call of each desk.
pub fn carry<A: Desk, B: Desk>(a: &mut A, b: &mut B, after: u32) -> Result<u32, DeskFault>
    requires a_ready { A.ready a.old }
    requires b_ready { B.ready b.old }
    ensures a_ready { A.ready a.new }
    ensures b_ready { B.ready b.new }
    ensures carries { (asked : Result Reply DeskFault)
        × Calls A.step A.fault a.old (calls.Ops after 64) asked a.new
        × HandsTold B.step B.fault b.old after asked result b.new }
{
    match a.call(Call::Ops {
        after,
        max: MAX_COUNT,
    }) {
        Ok(Reply::Ops { from: _, ops }) => hand(b, after, ops),
        Ok(_) => Ok(after),
        Err(why) => Err(why),
    }
}
