//! Rooms that near their limits: a run of the server ends for them, and the next begins over what they have. Where that gains something a
//! room begins anew with its text.
ghost use Rattle.std.specs.Prelude.{◌≡◌, ◌<◌, length};
ghost use Rattle.ws_server.specs.Halls.{rooms_of, IsHallPassOf};

use crate::serving::Shared;
use crate::sites::{MANY_SITES, site_without, used_sites};
use crate::state::{RoomState, nears_limit};
use crate::watch::{MANY_CALLS, MANY_OPERATIONS, MANY_SESSIONS};
use kept_rooms::follow;
use opid::Refusal;
use shared_room::Look;
use std::alloc::{AllocError, Global};
use std::sync::Wait;
use std::time::Clock;
use versions::Doc;
use ws_server::{Hall, HallPass};

/// The module under whose name it is warned.
pub(crate) const TARGET: &str = "rgatext::renewing";

// A room with a longer text, in characters, would soon be full again.
const LONGEST: usize = 100_000;

/// A room that a run leaves: its document, and whether it begins anew.
#[derive(Drop)]
pub(crate) struct Left {
    pub(crate) doc: Doc,
    pub(crate) begins_anew: bool,
    pub ghost unreserved: { doc.reserved ≡ 0 },
}

// What becomes of a room.
#[derive(Clone, Copy, PartialEq, Eq)]
enum Fate {
    // It begins anew, so the run ends.
    BeginsAnew,
    // The run ends for its history alone.
    GoesOn,
    // The run doesn't end for it.
    Stays,
}

/// Where a run is to end, since a room nears a limit or that is asked for: the rooms' documents so far, so that little is left to do when
/// nobody types any more. A room that can't begin anew is warned of, each hour.
pub(crate) fn prepare<R: Wait + Clock>(
    rt: &R,
    alloc: Global,
    shared: Shared<'_>,
    pass: &mut HallPass,
    is_asked: bool,
) -> Option<Vec<Left>>
    requires pass { IsHallPassOf shared.hall.now pass.old }
    requires told { length shared.rooms.now ≡ length (rooms_of shared.hall.now) }
    ensures pass { IsHallPassOf shared.entry.hall.now pass.new }
{
    match do_rooms_run_out(rt, shared, pass) {
        Ok(do_some) if do_some || is_asked => {}
        Ok(_) => return None,
        Err(why) => return unprepared(rt, alloc, shared, why),
    }
    let mut all = Vec::new(alloc);
    let mut does_end = false;
    for place in 0..shared.hall.len() {
        let (left, fate) = match looked_at(rt, alloc, shared, pass, place, is_asked) {
            Ok(it) => it,
            Err(why) => return unprepared(rt, alloc, shared, why),
        };
        does_end |= fate != Fate::Stays;
        if all.push(left).is_err() {
            return unprepared(rt, alloc, shared, Refusal::Memory);
        }
    }
    if !does_end {
        if is_asked {
            let text = format!(in alloc; "no room gains anything by beginning anew");
            shared.warnings.add(rt, TARGET, text);
        }
        return None;
    }
    match without_site(&all, shared.rooms) {
        None => Some(all),
        Some(room) => {
            let name = &room.name;
            let why = "no site is left for it, so no run can follow";
            if room.is_to_be_told(rt) || is_asked {
                let text = format!(in alloc;
                    "room {name}: {why} (docs/RENEWING.md tells what to do)"
                );
                shared.warnings.add(rt, TARGET, text);
            }
            room.stay(rt, String::from_str(alloc, why).ok());
            None
        }
    }
}

// Whether a room's log or history nears its limit, which is said more and more seldom, or each minute.
fn do_rooms_run_out<R: Wait + Clock>(
    rt: &R,
    shared: Shared<'_>,
    pass: &mut HallPass,
) -> Result<bool, Refusal>
    requires pass { IsHallPassOf shared.hall.now pass.old }
    requires told { length shared.rooms.now ≡ length (rooms_of shared.hall.now) }
    ensures pass { IsHallPassOf shared.entry.hall.now pass.new }
{
    let mut do_some = false;
    for place in 0..shared.hall.len() {
        let look = match shared.hall.look(rt, pass, place, u32::MAX) {
            Ok(look) => look,
            Err(why) => return Err(why),
        };
        do_some |= shared.rooms[place].runs_out(rt, &look);
    }
    Ok(do_some)
}

// Warns why no run ends.
fn unprepared<R: Wait>(
    rt: &R,
    alloc: Global,
    shared: Shared<'_>,
    why: Refusal,
) -> Option<Vec<Left>> {
    let text = format!(in alloc; "no room can begin anew: {why:?}");
    shared.warnings.add(rt, TARGET, text);
    None
}

// The room at a place as a look tells, with its document, and what becomes of it.
fn looked_at<R: Wait + Clock>(
    rt: &R,
    alloc: Global,
    shared: Shared<'_>,
    pass: &mut HallPass,
    place: usize,
    is_asked: bool,
) -> Result<(Left, Fate), Refusal>
    requires pass { IsHallPassOf shared.hall.now pass.old }
    requires within { place < length (rooms_of shared.hall.now) }
    requires told { length shared.rooms.now ≡ length (rooms_of shared.hall.now) }
    ensures pass { IsHallPassOf shared.entry.hall.now pass.new }
{
    let look = match shared.hall.look(rt, pass, place, u32::MAX) {
        Ok(look) => look,
        Err(why) => return Err(why),
    };
    let nothing = Left {
        doc: Doc::new(alloc),
        begins_anew: false,
    };
    let left = followed(rt, shared.hall, pass, place, nothing)?;
    let fate = fate_of(rt, alloc, shared, place, &left.doc, &look, is_asked);
    let Left { doc, .. } = left;
    let begins_anew = fate == Fate::BeginsAnew;
    Ok((Left { doc, begins_anew }, fate))
}

// What becomes of the room at a place, whose document is told.
fn fate_of<R: Wait + Clock>(
    rt: &R,
    alloc: Global,
    shared: Shared<'_>,
    place: usize,
    doc: &Doc,
    look: &Look,
    is_asked: bool,
) -> Fate
    requires within { place < length shared.rooms.now }
{
    let room = &shared.rooms[place];
    let version = doc.version();
    let length = doc.len_at(version);
    let gains = nears_limit(version, doc.known()) || (is_asked && version as usize > length);
    if gains {
        // (with few sites left a long text gains sites)
        let is_long = length > LONGEST && used_sites(doc.known()) < MANY_SITES;
        let why: Result<String, AllocError> = if is_long && version >= MANY_OPERATIONS {
            format!(in alloc; "its text has {length} characters, more than {LONGEST}")
        } else if !is_asked && room.has_others(doc.known()) {
            String::from_str(alloc, "operations of other servers came")
        } else {
            return Fate::BeginsAnew;
        };
        if let Ok(why) = why {
            if room.is_to_be_told(rt) || is_asked {
                let name = &room.name;
                let text = format!(in alloc;
                    "room {name} doesn't begin anew: {why} (docs/RENEWING.md tells what to do)"
                );
                shared.warnings.add(rt, TARGET, text);
            }
            room.stay(rt, Some(why));
        }
    }
    // (another run begins with no sessions, too)
    let is_crowded = is_asked && look.sessions >= MANY_SESSIONS;
    if look.calls >= MANY_CALLS || is_crowded {
        Fate::GoesOn
    } else {
        Fate::Stays
    }
}

/// Whether each room's last turn kept what there was, and none lasts: else a run that ends would wait for the disk, with nobody let in.
pub(crate) fn are_well<R: Wait + Clock>(rt: &R, shared: Shared<'_>) -> bool {
    shared
        .turns
        .iter()
        .all(|it| it.is_well(rt) && !it.is_stuck(rt))
}

// The first room that no run can follow: only its own site is left, which somebody may use yet.
fn without_site<'a>(all: &[Left], rooms: &'a [RoomState]) -> Option<&'a RoomState> {
    let mut place = 0usize;
    for room in rooms {
        match all.get(place) {
            Some(left) => {
                let known = left.doc.known();
                if site_without(known, known, Some(room.site)).is_none() {
                    return Some(room);
                }
            }
            None => {}
        }
        place = place.saturating_add(1);
    }
    None
}

/// Brings each room's document to the room's log as it is now.
pub(crate) fn follow_all<R: Wait>(
    rt: &R,
    alloc: Global,
    hall: &Hall,
    pass: &mut HallPass,
    all: Vec<Left>,
) -> Result<Vec<Left>, Refusal>
    requires pass { IsHallPassOf hall.now pass.old }
    ensures pass { IsHallPassOf hall.now pass.new }
{
    let mut done = Vec::new(alloc);
    let mut rest = all.into_iter();
    for place in 0..hall.len() {
        let Some(left) = rest.next() else {
            break;
        };
        let left = followed(rt, hall, pass, place, left)?;
        if done.push(left).is_err() {
            return Err(Refusal::Memory);
        }
    }
    Ok(done)
}

// The same for the room at a place.
fn followed<R: Wait>(
    rt: &R,
    hall: &Hall,
    pass: &mut HallPass,
    place: usize,
    left: Left,
) -> Result<Left, Refusal>
    requires pass { IsHallPassOf hall.now pass.old }
    requires within { place < length (rooms_of hall.now) }
    ensures pass { IsHallPassOf hall.now pass.new }
{
    let Left {
        mut doc,
        begins_anew,
        ..
    } = left;
    match follow(rt, hall, pass, place, &mut doc) {
        Ok(()) => Ok(Left { doc, begins_anew }),
        Err(why) => Err(why),
    }
}
