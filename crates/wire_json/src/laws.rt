//! Laws of the texts of replies: each is the contract of a function that does nothing.
ghost use Rattle.std.specs.Prelude.{◌≡◌, ◌≤◌, ℕ, option_map, option_and_then, Some, Ok, List, length, codes};
ghost use Rattle.serde_json.specs.Find.{get, as_array};
ghost use Rattle.serde_json.specs.Read.{read};
ghost use Rattle.opid.specs.Operations.{Operation};
ghost use Rattle.room_model.specs.declared.reply.Reply.{Reply};
ghost use Rattle.room_model.specs.declared.reply.Reply.TheVariants.{Ops};
ghost use Rattle.operation_json.specs.Operations.{items_told};
ghost use Rattle.operation_json.specs.PackedOperations.{packed_ops_of, handed_over};
ghost use Rattle.wire_json.specs.Text.{IsInRange, text};
ghost use Rattle.wire_json.specs.Part.{part_told};

use opid::MAX_COUNT;

/// Two different replies have different texts: a client can tell each reply from its line alone.
pub fn different_replies()
    ensures { (a b : Reply) → IsInRange a → IsInRange b → text a ≡ text b → a ≡ b }
{}

/// The text of an `ops` reply is JSON whose list at the key "ops" tells just the reply's operations. Where they are at most 64, a
/// `put` of that list hands over the same operations.
pub fn packed_operations_read_back()
    ensures told { (place : ℕ) (ops : List Operation) → IsInRange (Ops place ops)
        → option_map (λ ds. packed_ops_of (items_told ds))
        (option_and_then as_array (option_and_then (get (codes "ops")) (read (text (Ops place ops))))) ≡ Some (Ok ops) }
    ensures put { (place : ℕ) (ops : List Operation) → IsInRange (Ops place ops) → length ops ≤ MAX_COUNT
        → option_map (λ ds. handed_over (items_told ds))
        (option_and_then as_array (option_and_then (get (codes "ops")) (read (text (Ops place ops))))) ≡ Some (Ok ops) }
{}

/// The text of an `ops` reply of at most 64 operations tells the part of a log that the reply has.
pub fn parts_read_back()
    ensures { (n : ℕ) (ops : List Operation) → IsInRange (Ops n ops) → length ops ≤ MAX_COUNT → part_told (text (Ops n ops)) ≡ Ok (n, ops) }
{}
