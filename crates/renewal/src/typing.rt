//! A text as a site's typing of it.
ghost use Rattle.std.specs.Prelude.{◌≡◌, ◌<◌, ◌≤◌, ◌⊎◌, length, IfOk, IfErr};
ghost use Rattle.std.specs.List.{AllByRecursion};
ghost use Rattle.std.specs.Str.{chars};
ghost use Rattle.opid.specs.declared.refusal.Refusal.TheVariants.{Full, Memory};
ghost use Rattle.opid.specs.Lawful.{IsLawful};
ghost use Rattle.opid.specs.Reading.{reading};
ghost use Rattle.renewal.specs.Typing.{typing_of};

use causal_clock::Op;
use opid::{OpKind, Refusal, Site, count_characters};
use snapshot::append_operations;
use std::alloc::Global;
use versions::{Doc, MAX_OPERATIONS};

/// The document in which the site typed this text, and nothing else was done: an insertion for each character, each behind the one
/// before it. Takes the steps of `Doc::integrate` for each, and no memory but the document's.
///
/// Refused with `Full` exactly where the text has more than 131,072 characters, and with `Memory`.
pub fn type_text(alloc: Global, site: Site, text: &str) -> Result<Doc, Refusal>
    ensures log { IfOk result (λ doc. doc.log ≡ typing_of site (chars text.now)) }
    ensures reading { IfOk result (λ doc. reading doc.log ≡ chars text.now) }
    ensures lawful { IfOk result (λ doc. IsLawful doc.log) }
    ensures site { IfOk result (λ doc. AllByRecursion (λ x. x.site ≡ site) doc.log) }
    ensures count { IfOk result (λ doc. length doc.log ≡ length (chars text.now)) }
    ensures unreserved { IfOk result (λ doc. doc.reserved ≡ 0) }
    ensures cause { IfErr result (λ e. ((e ≡ Full) × (MAX_OPERATIONS < length (chars text.now)))
        ⊎ ((e ≡ Memory) × (length (chars text.now) ≤ MAX_OPERATIONS))) }
{
    prove!(site.number() < 32);
    if count_characters(text) > MAX_OPERATIONS {
        return Err(Refusal::Full);
    }
    let mut doc = Doc::new(alloc);
    let mut parent = None;
    for ch in text.chars() {
        let op = Op::next(site, doc.known(), OpKind::Ins { parent, ch });
        parent = Some(op.stamp());
        append_operations(&mut doc, &[op])?;
    }
    Ok(doc)
}
