//! A character that was put into a list and deleted: the list has it for good.
ghost use Rattle.std.specs.Prelude.{◌≡◌, ◌∷◌, [], IfOk, false};

use opid::{Refusal, Stamp};
use rga_list::Rga;
use std::alloc::Global;

/// A list into which a character was put, and that hides it.
pub fn put_and_hidden(alloc: Global, stamp: Stamp, ch: char) -> Result<Rga, Refusal>
    ensures { IfOk result (λ list. list.entries ≡ record { elem = 0; stamp = stamp; ch = ch; shown = false } ∷ []) }
{
    let mut list = Rga::new(alloc);
    let place = list.integrate_ins(stamp, None, ch)?;
    list.hide(place.elem);
    Ok(list)
}
