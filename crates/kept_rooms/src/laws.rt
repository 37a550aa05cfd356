//! Laws of rooms that are kept: each is the contract of a function that does nothing, so that it is proved with the crate.
ghost use Rattle.std.specs.Prelude.{◌≡◌, ◌<◌, ℕ, List, Some, length, map, slice_get};
ghost use mathlib.Core.List.{IsPrefix};
ghost use Rattle.ws_server.specs.declared.hall.Hall.{Hall};
ghost use Rattle.ws_server.specs.declared.hall.HallPass.{HallPass};
ghost use Rattle.ws_server.specs.Halls.{IsHallPassOf, IsOpenedOver, AreSplit};
ghost use Rattle.keeper.specs.Turn.{OpensAs};
ghost use Rattle.keeper.specs.Kept.{Keeps};
ghost use Rattle.keeper.specs.declared.kept.KeptFile.{KeptFile};
ghost use Rattle.kept_rooms.specs.Keeping.{IsFileOf};
ghost use Rattle.kept_rooms.specs.declared.opening.Opening.{Opening};
ghost use Rattle.kept_rooms.specs.Openings.{replica_over};
ghost use Rattle.kept_rooms.specs.SeenLogs.{seen_log, SeeAlike};

use keeper::Disk;
use keeper::laws::grows_with_its_log;

/// A hall was opened over documents, of which the file of a room keeps the one at its place, as `find` tells: then the file keeps what the
/// first pass has seen of its room, so that turns of it go on from its mark. A pass that is split off has seen the same, and so has the one
/// that is left: so it is for these, and for each pass that has seen no less: of whoever takes the next turn. Where all is kept that a pass
/// has seen, a crash leaves a file that opens as no less than that log.
pub fn rooms_are_kept<D: Disk>()
    ensures opened { (names : List (List ℕ)) (openings : List Opening) (hall : Hall) (pass : HallPass) (file : KeptFile D)
        (it : Opening) → it.site < 32 → IsOpenedOver names (map replica_over openings) hall pass
        → slice_get openings file.room ≡ Some it → Keeps D.honest D.seen D.may_leave D.fresh file it.doc.log
        → IsFileOf D.honest D.seen D.may_leave D.fresh hall pass file }
    ensures split { (hall : Hall) (old new given : HallPass) (count : ℕ)
        → AreSplit count (length old.passes.items) old.passes.items new.passes.items given.passes.items
        → SeeAlike hall old new × SeeAlike hall old given }
    ensures alike { (hall : Hall) (pass other : HallPass) (file : KeptFile D) → SeeAlike hall pass other
        → IsFileOf D.honest D.seen D.may_leave D.fresh hall pass file → IsFileOf D.honest D.seen D.may_leave D.fresh hall other file }
    ensures grows { (hall : Hall) (pass later : HallPass) (file : KeptFile D) → IsHallPassOf hall later
        → IsPrefix (seen_log hall file.room pass) (seen_log hall file.room later)
        → IsFileOf D.honest D.seen D.may_leave D.fresh hall pass file → IsFileOf D.honest D.seen D.may_leave D.fresh hall later file }
    ensures whole { (hall : Hall) (pass : HallPass) (file : KeptFile D) → IsFileOf D.honest D.seen D.may_leave D.fresh hall pass file
        → file.mark.version ≡ length (seen_log hall file.room pass)
        → (c : List ℕ) → D.may_leave file.disk c → OpensAs (length (seen_log hall file.room pass)) (seen_log hall file.room pass) c }
{
    grows_with_its_log::<D>();
}
