//! What holds of the definitions, whatever the operations: each law is the contract of a function that does nothing,
//! so that it is proved with the crate.
ghost use Rattle.std.specs.Prelude.{◌≡◌, ℕ, ◌<◌, true, None, List, length};
ghost use Rattle.opid.specs.Operations.{Operation};
ghost use Rattle.opid.specs.Delivery.{is_ready};
ghost use Rattle.opid.specs.Lawful.{IsLawful, MayFollow};
ghost use Rattle.opid.specs.Kinds.{IsOperation};
ghost use Rattle.opid.specs.Delivered.{refusal_of};
ghost use Rattle.opid.specs.Delivered.{Settling, settle};
ghost use Rattle.opid.specs.Delivered.{IsSettled, AreOperations};
ghost use Rattle.opid.specs.Delivered.{deliver};

use opid::MAX_OPERATIONS;

/// A ready operation is refused by a log that isn't full exactly where the log wouldn't stay lawful.
#[tactic(auto, using(crate::proofs::Stated::laws))]
pub fn refused_where_not_lawful()
    ensures accepted { (log : List Operation) (x : Operation) → IsLawful log → IsOperation x → is_ready log x ≡ true
        → refusal_of log x ≡ None → MayFollow log x }
    ensures refused { (log : List Operation) (x : Operation) → IsOperation x → length log < MAX_OPERATIONS → MayFollow log x
        → refusal_of log x ≡ None }
{}

/// Settling ends where the log is full or nothing that is held back is ready.
#[tactic(auto, using(crate::proofs::Stated::laws))]
pub fn settling_ends_settled()
    ensures { (s : Settling) → IsSettled (settle s) }
{}

/// The log stays lawful, whatever is delivered.
#[tactic(auto, using(crate::proofs::Stated::laws))]
pub fn deliveries_keep_the_log_lawful()
    ensures { (site : ℕ) (log held : List Operation) (x : Operation) → IsLawful log → AreOperations held → IsOperation x
        → IsLawful (deliver site log held x).log }
{}
