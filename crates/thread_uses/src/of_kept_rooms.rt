//! A hall over what was found in a file.
ghost use Rattle.std.specs.Prelude.{◌≡◌, IfOk};
ghost use Rattle.ws_server.specs.Halls.{IsHallPassOf};

use kept_rooms::{Opening, open_hall};
use opid::{Refusal, Site};
use std::alloc::Global;
use versions::Doc;
use ws_server::{Hall, HallPass};

/// A hall with a room of this name over a document, at a site that the document's log has no operation of.
pub fn hall_over(
    alloc: Global,
    name: &str,
    doc: Doc,
    site: Site,
) -> Result<(Hall, HallPass), Refusal>
    requires { doc.reserved ≡ 0 }
    ensures { IfOk result (λ r. IsHallPassOf r.0 r.1) }
{
    let names = [String::from_str(alloc, name)?];
    let openings = vec![in alloc; Opening { doc, site }]?;
    match open_hall(alloc, &names, openings) {
        Ok(opened) => Ok(opened),
        Err(unopened) => Err(unopened.why),
    }
}
