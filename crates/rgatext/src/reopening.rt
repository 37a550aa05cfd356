//! The rooms that one run has left, for the next.
ghost use Rattle.std.specs.Prelude.{◌≡◌, length, Err, IfOk};
ghost use Rattle.ws_server.specs.Halls.{rooms_of, IsHallPassOf};

use crate::beside::stands_there;
use crate::renewed::{Over, renew_or_stay};
use crate::renewing::Left;
use crate::room_path::RoomPath;
use crate::rooms::{Opened, Room, Rooms, hall_of, room_of};
use crate::sites::site_without;
use crate::state::RoomState;
use crate::warnings::Warnings;
use commands::Stop;
use journal::free_site;
use keeper::{HostFile, KeptFile};
use kept_rooms::{Opening, RoomTurns};
use line_engine::ServeFault;
use opid::Refusal;
use std::alloc::Global;
use std::fs::{File, Files};
use std::sync::Wait;

/// A run that has ended: of each room how it was, its turns, its file and what it leaves.
#[derive(Drop)]
pub(crate) struct EndedRun {
    pub(crate) states: Vec<RoomState>,
    pub(crate) turns: Vec<RoomTurns<HostFile>>,
    pub(crate) files: Vec<Option<RoomPath>>,
    pub(crate) left: Vec<Left>,
    pub(crate) lock: Option<File>,
}

/// The rooms that a run has left, for the next: over what each has, and where it begins anew over its text in a new file. Their turns are
/// over. What comes of each that begins anew is warned of.
///
/// `Memory`, and `SiteUsed` where a log leaves no site.
pub(crate) fn reopen_rooms<R: Files<File = File> + Wait>(
    rt: &R,
    alloc: Global,
    folder: &str,
    warnings: &Warnings,
    ended: EndedRun,
) -> Result<Opened, Stop>
    ensures passes { IfOk result (λ opened. IsHallPassOf opened.hall opened.pass) }
    ensures turns { IfOk result (λ opened. length opened.turns.items ≡ length (rooms_of opened.hall)) }
    ensures states { IfOk result (λ opened. length opened.states.items ≡ length (rooms_of opened.hall)) }
    ensures watched { IfOk result (λ opened. length opened.watched.items ≡ length (rooms_of opened.hall)) }
    ensures fits { (result ≡ Err (Stop.Refused Refusal.BadField)) → ⊥ }
{
    let EndedRun {
        states,
        turns,
        files,
        left,
        lock,
    } = ended;
    let mut rooms = Rooms::new(alloc);
    let (mut turns, mut files, mut left) = (turns.into_iter(), files.into_iter(), left.into_iter());
    for state in states {
        let (Some(turns), Some(Some(path)), Some(left)) = (turns.next(), files.next(), left.next())
        else {
            return Err(Stop::Files);
        };
        let Some(file) = turns.into_file() else {
            return Err(Stop::Files);
        };
        // (it has all that is kept)
        if file.version() > left.doc.version() {
            return Err(Stop::Files);
        }
        let place = rooms.names.len();
        let room = reopen_room(rt, alloc, folder, warnings, place, state, path, file, left)?;
        let Ok(()) = rooms.add(room) else {
            return Err(Stop::Fault(ServeFault::Memory));
        };
    }
    hall_of(alloc, rooms, lock)
}

// A room at a place that a run has left, for the next.
fn reopen_room<R: Files<File = File> + Wait>(
    rt: &R,
    alloc: Global,
    folder: &str,
    warnings: &Warnings,
    place: usize,
    state: RoomState,
    path: RoomPath,
    file: KeptFile<HostFile>,
    left: Left,
) -> Result<Room, Stop>
    ensures unreserved { IfOk result (λ room. room.opening.doc.reserved ≡ 0) }
    ensures fits { (result ≡ Err (Stop.Refused Refusal.BadField)) → ⊥ }
{
    let Left {
        doc,
        begins_anew,
        ..
    } = left;
    let (path, node) = path.into_parts();
    let old = *doc.known();
    let over = Over { file, node, doc };
    let (over, is_new) = if begins_anew {
        renew_or_stay(
            rt,
            alloc,
            folder,
            warnings,
            place,
            &state,
            path.as_str(),
            over,
        )
    } else {
        (over, false)
    };
    let Over { file, node, doc } = over;
    // (no number of the old document comes again, where a site is left for that)
    let Some(site) = site_without(doc.known(), &old, None).or(free_site(&doc)) else {
        return Err(Stop::Refused(Refusal::SiteUsed));
    };
    let turns = RoomTurns::new(place, Some(file));
    if !stands_there(rt, path.as_str(), node) {
        turns.go_astray(rt);
    }
    let Ok(name) = state.name.clone() else {
        return Err(Stop::Fault(ServeFault::Memory));
    };
    let state = state.next(site, *doc.known(), is_new);
    room_of(
        &name,
        state,
        Opening { doc, site },
        turns,
        Some((path, node)),
    )
}
