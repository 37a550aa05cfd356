//! An operation with its clock, and whether it may be taken in.
ghost use Rattle.std.specs.Prelude.{◌≡◌, IfOk, None};
ghost use Rattle.opid.specs.Clocks.{is_next};
ghost use Rattle.opid.specs.declared.kind.OpKind.TheVariants as kinds;

use causal_clock::{Clock, Op};
use opid::{OpKind, Refusal, Site};

/// The first insertion of a site, at the head, and whether it may be taken in where this is known.
pub fn first_insertion(site: Site, ch: char, known: &Clock) -> Result<(Op, bool), Refusal>
    ensures kind { IfOk result (λ r. r.0.kind ≡ kinds.Ins None ch) }
    ensures ready { IfOk result (λ r. r.1 ≡ is_next site r.0.clock known.now) }
{
    let clock = Clock::from_pairs(&[(site, 1)])?;
    let op = Op::new(site, clock, OpKind::Ins { parent: None, ch })?;
    let is_ready = known.ready(&op);
    Ok((op, is_ready))
}
