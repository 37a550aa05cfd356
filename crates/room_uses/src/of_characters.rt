//! A text as a call keeps it.
ghost use Rattle.std.specs.Prelude.{◌≡◌, IfOk};
ghost use Rattle.std.specs.Str.{chars};

use characters::Characters;
use std::alloc::{AllocError, Global};

/// A text once more, as a call or a reply keeps it. Of at most 16 bytes it takes no memory.
pub fn kept_twice(alloc: Global, text: &str) -> Result<(Characters, Characters), AllocError>
    ensures { IfOk result (λ r. (r.0 ≡ chars text.now) × (r.1 ≡ chars text.now)) }
{
    let kept = Characters::from_str(alloc, text)?;
    let again = Characters::from_str(alloc, kept.as_str())?;
    Ok((kept, again))
}
