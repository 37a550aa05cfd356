//! Two stamps, and which of them stands first.
ghost use Rattle.std.specs.Prelude.{◌≡◌, IfOk, nat_lt};

use opid::{Refusal, Site, Stamp};

/// Whether the first of two sites stands before the other one, where they made something at one time.
pub fn stands_first(sum: u32, first: u8, other: u8) -> Result<bool, Refusal>
    ensures { IfOk result (λ b. b ≡ nat_lt first other) }
{
    let site = Site::new(first)?;
    let first = Stamp { sum, site };
    let site = Site::new(other)?;
    Ok(first.is_before(Stamp { sum, site }))
}
