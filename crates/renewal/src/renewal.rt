//! Renewal of a document.
ghost use Rattle.std.specs.Prelude.{◌≡◌, ◌≤◌, length, IfOk, IfErr};
ghost use Rattle.std.specs.List.{AllByRecursion};
ghost use Rattle.opid.specs.declared.refusal.Refusal.TheVariants.{Memory};
ghost use Rattle.opid.specs.Lawful.{IsLawful};
ghost use Rattle.opid.specs.Reading.{reading};
ghost use Rattle.renewal.specs.Typing.{typing_of};

use crate::typing::type_text;
use opid::{Refusal, Site};
use std::alloc::Global;
use versions::Doc;

/// The document that begins anew with the newest text of another: the site's typing of it, so as many operations as the text has
/// characters. Takes the steps of `Doc::reading`, and those of `Doc::integrate` for each character; memory for the text and for
/// the document. Refused with `Memory` alone.
pub fn renew(alloc: Global, doc: &Doc, site: Site) -> Result<Doc, Refusal>
    ensures reading { IfOk result (λ new. reading new.log ≡ reading doc.now.log) }
    ensures lawful { IfOk result (λ new. IsLawful new.log) }
    ensures site { IfOk result (λ new. AllByRecursion (λ x. x.site ≡ site) new.log) }
    ensures count { IfOk result (λ new. length new.log ≡ length (reading doc.now.log)) }
    ensures shorter { IfOk result (λ new. length new.log ≤ length doc.now.log) }
    ensures log { IfOk result (λ new. new.log ≡ typing_of site (reading doc.now.log)) }
    ensures unreserved { IfOk result (λ new. new.reserved ≡ 0) }
    ensures memory { IfErr result (λ e. e ≡ Memory) }
{
    let text = doc.reading(doc.version())?;
    type_text(alloc, site, text.as_str())
}
