//! Laws of the texts of operations: each is the contract of a function that does nothing.
ghost use Rattle.std.specs.Prelude.{◌≡◌, option_map, Some, Ok, List};
ghost use Rattle.std.specs.List.{AllByRecursion};
ghost use Rattle.serde_json.specs.Read.{read};
ghost use Rattle.opid.specs.Operations.{Operation};
ghost use Rattle.opid.specs.Kinds.{IsOperation};
ghost use Rattle.operation_json.specs.Operations.{op_of};
ghost use Rattle.operation_json.specs.Packing.{unfolded_all, packed_items};
ghost use Rattle.operation_json.specs.Text.{IsKindInRange, IsOperationInRange, op_text, packed_text};

/// The text of an operation is JSON that tells that operation.
pub fn operations_read_back()
    ensures { (x : Operation) → IsOperation x → IsKindInRange x.kind → option_map op_of (read (op_text x)) ≡ Some (Ok x) }
{}

/// Two different operations have different texts.
pub fn different_operations()
    ensures { (x y : Operation) → IsOperation x → IsKindInRange x.kind → IsOperation y → IsKindInRange y.kind
        → op_text x ≡ op_text y → x ≡ y }
{}

/// Unfolding what is packed gives the operations back, in their order.
pub fn packing_unfolds()
    ensures { (ops : List Operation) → unfolded_all (packed_items ops) ≡ ops }
{}

/// Two different lists of operations have different packed texts.
pub fn different_packed_operations()
    ensures { (a b : List Operation) → AllByRecursion IsOperationInRange a → AllByRecursion IsOperationInRange b
        → packed_text a ≡ packed_text b → a ≡ b }
{}
