//! A document that follows the log of a room.
ghost use Rattle.std.specs.Prelude.{◌≡◌, ◌⊎◌, ◌<◌, length, IfErr, OnOk};
ghost use mathlib.Core.List.{IsPrefix};
ghost use Rattle.ws_server.specs.Halls.{rooms_of, IsHallPassOf};
ghost use Rattle.opid.specs.declared.refusal.Refusal.TheVariants as Why;
ghost use Rattle.kept_rooms.specs.Keeping.{IsOverLog};
ghost use Rattle.kept_rooms.specs.SeenLogs.{seen_log};

use opid::Refusal;
use snapshot::append_operations;
use std::sync::Wait;
use versions::Doc;
use ws_server::{Hall, HallPass};

/// Appends to a document what the log of the room at a place has gained, as a look tells now: a document whose log begins the one that the
/// pass has seen has all of it then.
///
/// Refused with `Worn` and `Memory`, as `Hall::look` is, and some of it may have been appended then; one whose log doesn't begin that one,
/// as `append_operations` is, too. Takes a turn of the room, and the steps of
/// `append_operations`.
pub fn follow<R: Wait>(
    rt: &R,
    hall: &Hall,
    pass: &mut HallPass,
    at: usize,
    doc: &mut Doc,
) -> Result<(), Refusal>
    requires pass { IsHallPassOf hall.now pass.old }
    requires within { at < length (rooms_of hall.now) }
    ensures pass { IsHallPassOf hall.now pass.new }
    ensures grows { IsPrefix (seen_log hall.now at pass.old) (seen_log hall.now at pass.new) }
    ensures followed { OnOk result (IsPrefix doc.old.log (seen_log hall.now at pass.old)
        → doc.new.log ≡ seen_log hall.now at pass.new) }
    ensures unreserved { OnOk result (doc.old.reserved ≡ 0 → doc.new.reserved ≡ 0) }
    ensures cause { IfErr result (λ e. IsOverLog hall.now at → IsPrefix doc.old.log (seen_log hall.now at pass.old)
        → (e ≡ Why.Worn) ⊎ (e ≡ Why.Memory)) }
{
    let version = doc.version();
    let look = match hall.look(rt, pass, at, version) {
        Ok(look) => look,
        Err(why) => return Err(why),
    };
    match append_operations(doc, look.ops.as_slice()) {
        Ok(()) => Ok(()),
        Err(why) => Err(why),
    }
}
