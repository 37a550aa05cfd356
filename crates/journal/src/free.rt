//! The least site that is free in a log.
ghost use Rattle.std.specs.Prelude.{◌≡◌, ◌<◌, ℕ, IfSome, IfNone};
ghost use Rattle.snapshot.specs.Snapshot.{LacksSite};

use opid::{SITES, Site};
use snapshot::lacks_site;
use versions::Doc;

/// The least site that has no operation in the log of the document; none where each of the 32 sites has one. Takes 32 steps at most.
pub fn free_site(doc: &Doc) -> Option<Site>
    ensures free { IfSome result (λ site. LacksSite site doc.now.log) }
    ensures least { IfSome result (λ site. (s : ℕ) → s < site → LacksSite s doc.now.log → ⊥) }
    ensures none { IfNone result ((s : ℕ) → s < 32 → LacksSite s doc.now.log → ⊥) }
{
    for number in 0..SITES as u8 {
        if let Ok(site) = Site::new(number) {
            if lacks_site(doc, site) {
                return Some(site);
            }
        }
    }
    None
}
