//! The line that tells the digest of what stands before it.
ghost use Rattle.std.specs.Prelude.{◌≡◌, ◌++◌, ℕ, List, IfOk, codes, string_bytes};
ghost use Rattle.sha2.specs.Hashers.{Holds256};
ghost use Rattle.journal.specs.Journal.{digest_line};

use sha2::{Digest, Sha256};
use std::alloc::{AllocError, Global};

// How such a line begins. No part's line does.
pub(crate) const START: &str = "{\"sha256\":\"";

// The line that tells the digest of the bytes before it, which were hashed.
pub(crate) fn digest_line(alloc: Global, before: &Sha256) -> Result<String, AllocError>
    ensures { IfOk result (λ line. (bytes : List ℕ) → Holds256 before.now bytes → string_bytes line ≡ digest_line bytes) }
{
    let digest = before.clone()?.finalize();
    let text = hex::encode(alloc, digest)?;
    let mut line = String::from_str(alloc, START)?;
    line.push_str(text.as_str())?;
    line.push_str("\"}")?;
    Ok(line)
}
