//! Rooms that open over what was found in their files.
ghost use Rattle.std.specs.Prelude.{◌≡◌, ◌⊎◌, false, length, map, string_bytes, All, IfOk, IfErr, OnOk};
ghost use Rattle.opid.specs.declared.refusal.Refusal.TheVariants as Why;
ghost use Rattle.snapshot.specs.Snapshot.{LacksSite};
ghost use Rattle.ws_server.specs.Halls.{IsHallPassOf, IsOpenedOver};
ghost use Rattle.ws_server.specs.Names.{names_fit};
ghost use Rattle.kept_rooms.specs.Openings.{replica_over};

use opid::{Refusal, Site};
use snapshot::open_over;
use std::alloc::Global;
use versions::Doc;
use ws_server::{Hall, HallPass};

/// What a room opens over: a document, at a site.
#[derive(Drop)]
pub struct Opening {
    /// The document of its log.
    pub doc: Doc,
    /// The site, which the log has no operation of.
    pub site: Site,
}

/// Why rooms aren't opened.
#[derive(Clone, Copy, Debug)]
pub struct Unopened {
    /// Why.
    pub why: Refusal,
    /// The place of the room that it was found at, or how many rooms there are.
    pub place: usize,
}

/// A room for each name, over what is at its place, and the first pass of each.
///
/// Refused with `SiteUsed` where a log has an operation of its site, and else as `Hall::over` is. Takes the steps of `open_over` for each
/// room.
pub fn open_hall(
    alloc: Global,
    names: &[String],
    openings: Vec<Opening>,
) -> Result<(Hall, HallPass), Unopened>
    requires counted { length openings.items ≡ length names.now }
    requires unreserved { All (λ it. it.doc.reserved ≡ 0) openings.items }
    ensures passes { IfOk result (λ r. IsHallPassOf r.0 r.1) }
    ensures opened { IfOk result (λ r. IsOpenedOver (map string_bytes names.now) (map replica_over openings.items) r.0 r.1) }
    ensures unused { OnOk result (All (λ it. LacksSite it.site it.doc.log) openings.items) }
    ensures unfit { IfErr result (λ e. e.why ≡ Why.BadField → names_fit names.now ≡ false) }
    ensures cause { IfErr result (λ e. ((e.why ≡ Why.SiteUsed) × (All (λ it. LacksSite it.site it.doc.log) openings.items → ⊥))
        ⊎ (e.why ≡ Why.BadField) ⊎ (e.why ≡ Why.Memory)) }
{
    let count = openings.len();
    let mut replicas = Vec::new(alloc);
    let mut rest = openings.into_iter();
    for place in 0..count {
        let Some(opening) = rest.next() else {
            unreachable!()
        };
        let Opening { doc, site } = opening;
        let replica = match open_over(alloc, site, doc) {
            Ok(replica) => replica,
            Err(why) => return Err(Unopened { why, place }),
        };
        let Ok(()) = replicas.push(replica) else {
            return Err(Unopened {
                why: Refusal::Memory,
                place,
            });
        };
    }
    match Hall::over(alloc, names, replicas) {
        Ok(opened) => Ok(opened),
        Err(why) => Err(Unopened { why, place: count }),
    }
}
