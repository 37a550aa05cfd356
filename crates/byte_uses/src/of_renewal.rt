//! A document that begins anew.
ghost use Rattle.std.specs.Prelude.{◌≡◌, IfOk};
ghost use Rattle.std.specs.Str.{chars};
ghost use Rattle.opid.specs.Reading.{reading};

use opid::{Refusal, Site};
use renewal::{renew, type_text};
use std::alloc::Global;
use versions::Doc;

/// A document that one site typed, begun anew by another one: it reads the same.
pub fn begun_anew(alloc: Global, text: &str, from: Site, to: Site) -> Result<Doc, Refusal>
    ensures { IfOk result (λ doc. reading doc.log ≡ chars text.now) }
{
    let old = type_text(alloc, from, text)?;
    renew(alloc, &old, to)
}
