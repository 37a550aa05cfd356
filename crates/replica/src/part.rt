//! A part of a log, as another replica asks for it.
ghost use Rattle.std.specs.Prelude.{◌≡◌, ◌⊎◌, Ok, Err, IsOk, IfOk, IfErr};
ghost use Rattle.opid.specs.declared.refusal.Refusal.TheVariants.{Memory};
ghost use Rattle.opid.specs.Delivered.{part_of};

use causal_clock::Op;
use opid::{Refusal, is_bad_count};
use versions::Doc;

/// The operations of the log from a place on, at most `max`. Takes what `Doc::copy_ops` takes.
#[tactic(auto, using(crate::proofs::Parts::part_of_end))]
pub(crate) fn copy_part(doc: &Doc, after: u32, max: u32) -> Result<Vec<Op>, Refusal>
    ensures ok { IfOk result (λ ops. part_of doc.now.log after max ≡ Ok ops.items) }
    ensures cause { IfErr result (λ e. (part_of doc.now.log after max ≡ Err e) ⊎ (IsOk (part_of doc.now.log after max) × (e ≡ Memory))) }
{
    if after > doc.version() || is_bad_count(max as usize) {
        return Err(Refusal::BadRange);
    }
    let end = doc.version().min(after + max);
    Ok(doc.copy_ops(after, end)?)
}
