//! A turn of keeping a room's log.
ghost use Rattle.std.specs.Prelude.{◌≡◌, ◌<◌, ◌≤◌, ◌↔◌, Err, None, length, IfOk, IfSome, OnOk};
ghost use Rattle.std.specs.declared.io.Error.{Error};
ghost use Rattle.ws_server.specs.Halls.{rooms_of, IsHallPassOf};
ghost use Rattle.kept_rooms.specs.Keeping.{TurnsRoom, KeepsRoom};
ghost use Rattle.kept_rooms.specs.SeenLogs.{seen_log};

use keeper::laws::turns_follow;
use keeper::{Disk, KeepFault, KeptFile};
use opid::Refusal;
use shared_room::Look;
use std::alloc::Global;
use std::sync::Wait;
use thiserror::Error;
use ws_server::{Hall, HallPass};

/// Why a turn kept nothing.
#[derive(Debug, Drop, Error)]
pub enum TurnFault {
    /// The room couldn't be looked at.
    #[error("the room can't be looked at: {0:?}")]
    Look(Refusal),
    /// The file couldn't be written.
    #[error("{0}")]
    Keep(KeepFault),
    /// The file isn't the room's any more.
    #[error("the file isn't the room's any more")]
    Astray,
}

/// Looks at the file's room, and keeps what its log has gained: at `Ok` all that the look has seen. After an error the file's mark is where
/// it was, and the next turn can begin there.
///
/// `Look` where the pass is worn, or there was no memory for what the log has gained; `Keep` as `KeptFile::keep` tells. Takes a turn of the
/// room, and the steps of `keep`.
pub fn keep_turn<R: Wait, D: Disk>(
    rt: &R,
    alloc: Global,
    hall: &Hall,
    pass: &mut HallPass,
    file: &mut KeptFile<D>,
) -> Result<Look, TurnFault>
    requires pass { IsHallPassOf hall.now pass.old }
    requires within { file.old.room < length (rooms_of hall.now) }
    ensures pass { IsHallPassOf hall.now pass.new }
    ensures room { file.new.room ≡ file.old.room }
    ensures version { IfOk result (λ look. look.version ≡ length (seen_log hall.now file.old.room pass.new)) }
    ensures no_less { length (seen_log hall.now file.old.room pass.old) ≤ length (seen_log hall.now file.old.room pass.new) }
    ensures turned { TurnsRoom D.honest D.seen D.may_leave D.fresh D.moment D.left_since hall.now pass.new file.old file.new }
    ensures kept { OnOk result (KeepsRoom D.honest D.seen D.may_leave D.fresh hall.now pass.new file.old file.new) }

    // It doesn't give up by itself, but for want of memory.
    ensures strayed { (e : Error) → result ≡ Err (TurnFault.Keep (KeepFault.Strayed e)) → D.honest file.old.disk → ⊥ }
    ensures file { (e : Error) → result ≡ Err (TurnFault.Keep (KeepFault.File e)) → D.honest file.old.disk
        → D.faults file.old.disk < D.faults file.new.disk }
    ensures astray { result ≡ Err TurnFault.Astray → ⊥ }
{
    turns_follow::<D>();
    let at = file.room();
    let look = match hall.look(rt, pass, at, file.version()) {
        Ok(look) => look,
        Err(why) => return Err(TurnFault::Look(why)),
    };
    match file.keep(alloc, look.ops.as_slice()) {
        Ok(()) => Ok(look),
        Err(why) => Err(TurnFault::Keep(why)),
    }
}

/// The same for the room at a place, which is kept in this file, if it is: else it is only looked at.
///
/// `NoRoom` where the file is another room's.
pub(crate) fn look_at<R: Wait, D: Disk>(
    rt: &R,
    alloc: Global,
    hall: &Hall,
    pass: &mut HallPass,
    at: usize,
    file: &mut Option<KeptFile<D>>,
) -> Result<Look, TurnFault>
    requires pass { IsHallPassOf hall.now pass.old }
    requires within { at < length (rooms_of hall.now) }
    ensures pass { IsHallPassOf hall.now pass.new }
    ensures version { IfOk result (λ look. look.version ≡ length (seen_log hall.now at pass.new)) }
    ensures no_less { length (seen_log hall.now at pass.old) ≤ length (seen_log hall.now at pass.new) }
    ensures turned { IfSome file.old (λ old. IfSome file.new (λ new. old.room ≡ at
        → TurnsRoom D.honest D.seen D.may_leave D.fresh D.moment D.left_since hall.now pass.new old new
        × OnOk result (KeepsRoom D.honest D.seen D.may_leave D.fresh hall.now pass.new old new))) }
    ensures there { (file.new ≡ None) ↔ (file.old ≡ None) }
    ensures others { IfSome file.old (λ old. (old.room ≡ at → ⊥) → file.new ≡ file.old) }
{
    match file {
        Some(file) if file.room() == at => keep_turn(rt, alloc, hall, pass, file),
        Some(_) => Err(TurnFault::Look(Refusal::NoRoom)),
        None => match glance(rt, hall, pass, at) {
            Ok(look) => Ok(look),
            Err(why) => Err(TurnFault::Look(why)),
        },
    }
}

/// A look at the room at a place that tells no operations, as `Hall::look` is refused.
pub(crate) fn glance<R: Wait>(
    rt: &R,
    hall: &Hall,
    pass: &mut HallPass,
    at: usize,
) -> Result<Look, Refusal>
    requires pass { IsHallPassOf hall.now pass.old }
    requires within { at < length (rooms_of hall.now) }
    ensures pass { IsHallPassOf hall.now pass.new }
    ensures version { IfOk result (λ look. look.version ≡ length (seen_log hall.now at pass.new)) }
    ensures no_less { length (seen_log hall.now at pass.old) ≤ length (seen_log hall.now at pass.new) }
{
    match hall.look(rt, pass, at, u32::MAX) {
        Ok(look) => Ok(look),
        Err(why) => Err(why),
    }
}
