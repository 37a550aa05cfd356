//! A text in quotes.
ghost use Rattle.std.specs.Prelude.{◌≡◌, ◌∷◌, IfOk};
ghost use Rattle.json_bytes.specs.Quote.{quote};

use json_bytes::push_quoted;
use std::alloc::{AllocError, Global};

/// Characters as a JSON text has them, in quotes.
pub fn quoted(alloc: Global, first: char, more: &[char]) -> Result<Vec<u8>, AllocError>
    ensures { IfOk result (λ bytes. bytes.items ≡ quote (first ∷ more.now)) }
{
    let mut bytes = Vec::new(alloc);
    push_quoted(&mut bytes, first, more)?;
    Ok(bytes)
}
