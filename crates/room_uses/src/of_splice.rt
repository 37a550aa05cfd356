//! A text that an edit is applied to.
ghost use Rattle.std.specs.Prelude.{◌≡◌, IfOk, Some};
ghost use Rattle.std.specs.Str.{chars};
ghost use Rattle.opid.specs.declared.edit.Edit.TheVariants as edits;
ghost use Rattle.opid.specs.Splice.{apply};

use opid::Refusal;
use splice::{Edit, EditedText, Text};
use std::alloc::Global;

/// The text with a character put in at a place. Refused with `BadPlace` where it has no such place.
pub fn typed_into(alloc: Global, text: &str, place: usize, ch: char) -> Result<Text, Refusal>
    ensures { IfOk result (λ t. apply (chars text.now) (edits.Ins place ch) ≡ Some t) }
{
    let mut typed = Text::start(alloc, text)?;
    typed.apply(&Edit::Ins(place, ch))?;
    Ok(typed)
}
