//! A log that is saved, and opened at another site.
ghost use Rattle.std.specs.Prelude.{◌≡◌, IfOk};

use opid::{Refusal, Site};
use replica::Replica;
use snapshot::laws::one_log;
use snapshot::{load, save};
use std::alloc::Global;

/// A replica of another site over the log that this one has.
pub fn opened_elsewhere(alloc: Global, replica: &Replica, site: Site) -> Result<Replica, Refusal>
    ensures { IfOk result (λ opened. opened.log ≡ replica.now.log) }
{
    let text = save(alloc, replica)?;
    one_log();
    load(alloc, text.as_bytes(), site)
}
