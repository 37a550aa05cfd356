//! What a text has that edits are applied to, whatever its places count.
use opid::{Edit, Refusal};
use std::alloc::Global;

/// A text that edits are applied to. Its places count characters (Unicode scalar values) or UTF-16 code units.
pub trait EditedText: Drop {
    ghost use Rattle.std.specs.Prelude.{◌≡◌, ◌↔◌, ℕ, Bool, List, [], Some, None, Err, IfOk, IfErr, OnOk, OnErr};
    ghost use Rattle.std.specs.Str.{chars};
    ghost use Rattle.opid.specs.declared.refusal.Refusal.TheVariants.{BadPlace, Memory};
    ghost use Rattle.opid.specs.Units.{text_in};
    ghost use Rattle.opid.specs.Splice.{apply_in};
    ghost use Rattle.splice.specs.Causes.{MayRefuse};

    // Whether its places count code units.
    ghost units: { Bool };

    // What stands at its places.
    ghost items: { Self → List ℕ };

    /// The empty text. Constant time; takes no memory.
    fn new(alloc: Global) -> Self
        ensures { items result ≡ [] };

    /// The empty text after one insertion of `start` at 0. Linear in its length. Refused with `Memory` alone.
    fn start(alloc: Global, start: &str) -> Result<Self, Refusal>
        ensures ok { IfOk result (λ t. items t ≡ text_in units (chars start.now)) }
        ensures err { IfErr result (λ e. e ≡ Memory) };

    /// Splices the text by one edit; linear in the number of places behind its own. Refused with `BadPlace` exactly where an insertion's
    /// place is above the length, a deletion's isn't below it, or the edit counts otherwise than the text; in code units also where
    /// either is inside a pair, or a deletion names another number of code units than the character at its place has. Refused with
    /// `Memory` where an insertion finds none. A refused edit changes nothing.
    fn apply(&mut self, edit: &Edit) -> Result<(), Refusal>
        ensures ok { OnOk result (apply_in units (items self.old) edit.now ≡ Some (items self.new)) }
        ensures outside { (result ≡ Err BadPlace) ↔ (apply_in units (items self.old) edit.now ≡ None) }
        ensures err { OnErr result (self.new ≡ self.old) }
        ensures cause { IfErr result (MayRefuse edit.now) };
}
