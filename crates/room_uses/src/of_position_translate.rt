//! What a place of a document asks for.
ghost use Rattle.std.specs.Prelude.{◌≡◌, ◌++◌, IfOk, length};
ghost use Rattle.std.specs.Str.{chars};
ghost use Rattle.opid.specs.Lawful.{IsLawful};

use causal_clock::Op;
use opid::{Refusal, Site};
use position_translate::insert_ops;
use std::alloc::Global;
use versions::Doc;

/// The operations by which a site types a text at the head of a document. They may follow its log.
pub fn typed_first(alloc: Global, doc: &Doc, site: Site, text: &str) -> Result<Vec<Op>, Refusal>
    ensures lawful { IfOk result (λ ops. IsLawful (doc.now.log ++ ops.items)) }
    ensures counted { IfOk result (λ ops. length ops.items ≡ length (chars text.now)) }
{
    let newest = doc.version();
    insert_ops(alloc, doc, site, newest, 0, text)
}
