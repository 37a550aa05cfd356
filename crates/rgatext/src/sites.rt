//! The sites of a log: how many it has, which are left for a next run, and whether another server's are among them.
use causal_clock::Clock;
use opid::{SITES, Site};
use versions::Doc;

/// From so many of 32 sites on that have operations in a log it nears its limit.
pub(crate) const MANY_SITES: usize = 28;

/// How many sites have operations in a log of these.
pub(crate) fn used_sites(known: &Clock) -> usize {
    let mut used = 0usize;
    for number in 0..SITES as u8 {
        if let Ok(site) = Site::new(number) {
            if known.entry(site) > 0 {
                used = used.saturating_add(1);
            }
        }
    }
    used
}

/// The least site, but for one, that neither a log of these operations nor one of those has an operation of.
pub(crate) fn site_without(known: &Clock, old: &Clock, but: Option<Site>) -> Option<Site> {
    for number in 0..SITES as u8 {
        if let Ok(site) = Site::new(number) {
            if known.entry(site) == 0 && old.entry(site) == 0 && but != Some(site) {
                return Some(site);
            }
        }
    }
    None
}

/// Whether a log shows operations of another server: a site comes again behind another one. The runs of one server each have a site that
/// the log has no operation of. Takes the steps of reading the log once.
pub(crate) fn shows_others(doc: &Doc) -> bool {
    let mut before = None;
    for op in doc.ops_from(0) {
        let site = op.site();
        if before != Some(site) && op.known().entry(site) > 1 {
            return true;
        }
        before = Some(site);
    }
    false
}
