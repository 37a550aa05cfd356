//! A document that takes in its first operation.
ghost use Rattle.std.specs.Prelude.{◌≡◌, [], ◌∷◌, IfOk, Some};
ghost use Rattle.opid.specs.Reading.{reading};
ghost use Rattle.opid.specs.Splice.{apply};

use causal_clock::Op;
use opid::{Edit, Refusal};
use std::alloc::Global;
use versions::Doc;

/// The edit by which an operation changes an empty document. Refused with `BadClock` where it waits for others.
pub fn first_edit(alloc: Global, op: &Op) -> Result<Edit, Refusal>
    ensures { IfOk result (λ edit. apply [] edit ≡ Some (reading (op.now ∷ []))) }
{
    let mut doc = Doc::new(alloc);
    if !doc.known().ready(op) {
        return Err(Refusal::BadClock);
    }
    doc.integrate(op)
}
