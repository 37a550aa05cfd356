//! What holds of the definitions, whatever the operations: each law is the contract of a function that does nothing,
//! so that it is proved with the crate.
ghost use Rattle.std.specs.Prelude.{◌≡◌, ℕ, true, List, Some, None};
ghost use Rattle.opid.specs.Operations.{Operation};
ghost use Rattle.opid.specs.Held.{is_same_operation};
ghost use Rattle.opid.specs.Held.{first_ready, without_first_ready};
ghost use Rattle.opid.specs.Held.{NoneReady, IsFirstReady};

/// The test of sameness is equality.
#[tactic(auto, using(crate::proofs::Stated::laws))]
pub fn sameness_is_equality()
    ensures same { (x y : Operation) → is_same_operation x y ≡ true → x ≡ y }
    ensures equal { (x y : Operation) → x ≡ y → is_same_operation x y ≡ true }
{}

/// What is taken out is the first operation, in order of arrival, that is ready, and the others stay in their order;
/// where nothing is, none is ready.
#[tactic(auto, using(crate::proofs::Stated::laws))]
pub fn the_first_ready_is_taken()
    ensures some { (clock : List ℕ) (held : List Operation) (x : Operation) → first_ready clock held ≡ Some x →
        IsFirstReady clock held x (without_first_ready clock held) }
    ensures none { (clock : List ℕ) (held : List Operation) → first_ready clock held ≡ None → NoneReady clock held }
{}
