//! A document that begins anew in a file of its own.
ghost use Rattle.std.specs.Prelude.{◌≡◌, ◌<◌, ◌≤◌, [], List, ℕ, Err, length, IfOk, OnErr};
ghost use Rattle.std.specs.List.{AllByRecursion};
ghost use Rattle.std.specs.declared.io.Error.{Error};
ghost use Rattle.opid.specs.Lawful.{IsLawful};
ghost use Rattle.opid.specs.Reading.{reading};
ghost use Rattle.journal.specs.Journal.{StandsFor};
ghost use Rattle.keeper.specs.Kept.{Keeps};
ghost use Rattle.renewal.specs.Typing.{typing_of};

use crate::renewal::renew;
use keeper::laws::grows_with_its_log;
use keeper::{Disk, KeepFault, KeptFile};
use opid::Site;
use std::alloc::Global;
use versions::Doc;

/// Renews a document, and keeps the whole log of the new one in a file that keeps nothing yet. At `Ok` it is on the disk: whatever a crash
/// leaves of the file stands for all of it.
///
/// Refused as `KeptFile::keep` is, but for `Full`. Takes the steps of `renew` and of `keep`.
pub fn renew_into<D: Disk>(
    alloc: Global,
    doc: &Doc,
    site: Site,
    file: &mut KeptFile<D>,
) -> Result<Doc, KeepFault>
    ensures reading { IfOk result (λ new. reading new.log ≡ reading doc.now.log) }
    ensures log { IfOk result (λ new. new.log ≡ typing_of site (reading doc.now.log)) }
    ensures lawful { IfOk result (λ new. IsLawful new.log) }
    ensures site { IfOk result (λ new. AllByRecursion (λ x. x.site ≡ site) new.log) }
    ensures shorter { IfOk result (λ new. length new.log ≤ length doc.now.log) }
    ensures unreserved { IfOk result (λ new. new.reserved ≡ 0) }
    ensures room { file.new.room ≡ file.old.room }
    ensures kept { IfOk result (λ new. Keeps D.honest D.seen D.may_leave D.fresh file.old []
        → Keeps D.honest D.seen D.may_leave D.fresh file.new new.log) }
    ensures version { IfOk result (λ new. Keeps D.honest D.seen D.may_leave D.fresh file.old []
        → file.new.mark.version ≡ length new.log) }
    ensures whole { IfOk result (λ new. Keeps D.honest D.seen D.may_leave D.fresh file.old []
        → (c : List ℕ) → D.may_leave file.new.disk c → StandsFor c new.log) }

    // It doesn't give up by itself.
    ensures full { result ≡ Err KeepFault.Full → Keeps D.honest D.seen D.may_leave D.fresh file.old [] → ⊥ }
    ensures strayed { (e : Error) → result ≡ Err (KeepFault.Strayed e) → D.honest file.old.disk → ⊥ }
    ensures file { (e : Error) → result ≡ Err (KeepFault.File e) → D.honest file.old.disk
        → D.faults file.old.disk < D.faults file.new.disk }
{
    grows_with_its_log::<D>();
    let Ok(new) = renew(alloc, doc, site) else {
        return Err(KeepFault::Memory);
    };
    let Ok(ops) = new.copy_ops(0, new.version()) else {
        return Err(KeepFault::Memory);
    };
    match file.keep(alloc, ops.as_slice()) {
        Ok(()) => Ok(new),
        Err(why) => Err(why),
    }
}
