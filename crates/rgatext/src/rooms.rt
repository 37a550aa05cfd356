//! The rooms before the first connection: over what the files of a folder stand for, or empty where nothing is kept.
ghost use Rattle.std.specs.Prelude.{◌≡◌, true, length, All, Err, IfOk, OnOk};
ghost use Rattle.ws_server.specs.Halls.{rooms_of, IsHallPassOf};
ghost use Rattle.ws_server.specs.Names.{names_fit};

use crate::beside::Node;
use crate::kept::{RoomFile, lock_folder, open_file, sync_folder};
use crate::listener::fitting;
use crate::room_path::RoomPath;
use crate::sites::{MANY_SITES, shows_others, used_sites};
use crate::state::RoomState;
use crate::watch::Watched;
use commands::Stop;
use journal::free_site;
use keeper::HostFile;
use kept_rooms::{Opening, RoomTurns, open_hall};
use line_engine::ServeFault;
use log::{Log, warn};
use opid::{Refusal, Site};
use snapshot::lacks_site;
use std::alloc::{AllocError, Global};
use std::fs::{File, Files};
use versions::Doc;
use ws_server::{Hall, HallPass};

/// The rooms, a pass of each, their turns, how they are, what is watched of them, and their files.
#[derive(Drop)]
pub(crate) struct Opened {
    pub(crate) hall: Hall,
    pub(crate) pass: HallPass,
    pub(crate) turns: Vec<RoomTurns<HostFile>>,
    pub(crate) states: Vec<RoomState>,
    pub(crate) watched: Vec<Watched>,
    pub(crate) files: Vec<Option<RoomPath>>,
    // The folder is this server's for as long as this is open.
    pub(crate) lock: Option<File>,
}

/// A room for each name: over what its file in the folder stands for, if there is a folder, and else an empty one. Its site is the one that
/// is named; else the least that its log has no operation of, which is 0 where nothing is kept.
///
/// A room whose file can't be had, stands for no log, or leaves no site is left out, which is warned of, as long as there is another one:
/// else `Files`, `BadSnapshot` and `SiteUsed`. `Memory`.
pub(crate) fn open_rooms<R: Files<File = File> + Log>(
    rt: &R,
    alloc: Global,
    folder: Option<&str>,
    site: Option<Site>,
    names: &[String],
) -> Result<Opened, Stop>
    requires fit { names_fit names.now ≡ true }
    ensures passes { IfOk result (λ opened. IsHallPassOf opened.hall opened.pass) }
    ensures turns { IfOk result (λ opened. length opened.turns.items ≡ length (rooms_of opened.hall)) }
    ensures states { IfOk result (λ opened. length opened.states.items ≡ length (rooms_of opened.hall)) }
    ensures watched { IfOk result (λ opened. length opened.watched.items ≡ length (rooms_of opened.hall)) }
    ensures fits { (result ≡ Err (Stop.Refused Refusal.BadField)) → ⊥ }
{
    let lock = match folder {
        Some(folder) => Some(lock_folder(rt, alloc, folder)?),
        None => None,
    };
    let mut rooms = Rooms::new(alloc);
    let mut left_out = Vec::new(alloc);
    let mut fault = Stop::Files;
    for name in names {
        match open_room(rt, alloc, folder, name, rooms.names.len(), site) {
            Ok(room) => {
                let Ok(()) = rooms.add(room) else {
                    return Err(Stop::Fault(ServeFault::Memory));
                };
            }
            Err(Stop::Fault(why)) => return Err(Stop::Fault(why)),
            Err(why) => {
                fault = why;
                let Ok(()) = left_out.push(name) else {
                    return Err(Stop::Fault(ServeFault::Memory));
                };
            }
        }
    }
    if rooms.names.is_empty() {
        fitting::<()>(Err(fault))?;
        return Err(Stop::Files);
    }
    for name in &left_out {
        warn!(rt; "room {name} is left out: whoever opens it gets 4; put its file right, and start the server anew");
    }
    if let Some(folder) = folder {
        sync_folder(rt, folder)?;
    }
    hall_of(alloc, rooms, lock)
}

/// The hall of rooms.
pub(crate) fn hall_of(alloc: Global, rooms: Rooms, lock: Option<File>) -> Result<Opened, Stop>
    requires unreserved { All (λ it. it.doc.reserved ≡ 0) rooms.openings.items }
    requires openings { length rooms.openings.items ≡ length rooms.names.items }
    requires turns { length rooms.turns.items ≡ length rooms.names.items }
    requires states { length rooms.states.items ≡ length rooms.names.items }
    requires watched { length rooms.watched.items ≡ length rooms.names.items }
    ensures passes { IfOk result (λ opened. IsHallPassOf opened.hall opened.pass) }
    ensures turns { IfOk result (λ opened. length opened.turns.items ≡ length (rooms_of opened.hall)) }
    ensures states { IfOk result (λ opened. length opened.states.items ≡ length (rooms_of opened.hall)) }
    ensures watched { IfOk result (λ opened. length opened.watched.items ≡ length (rooms_of opened.hall)) }
    ensures fits { (result ≡ Err (Stop.Refused Refusal.BadField)) → ⊥ }
{
    let Rooms {
        names,
        openings,
        turns,
        states,
        watched,
        files,
    } = rooms;
    match open_hall(alloc, names.as_slice(), openings) {
        Ok((hall, pass)) => Ok(Opened {
            hall,
            pass,
            turns,
            states,
            watched,
            files,
            lock,
        }),
        Err(unopened) => {
            fitting::<()>(Err(Stop::of(unopened.why)))?;
            Err(Stop::Files)
        }
    }
}

/// Rooms before their hall is there.
#[derive(Drop)]
pub(crate) struct Rooms {
    pub(crate) names: Vec<String>,
    openings: Vec<Opening>,
    turns: Vec<RoomTurns<HostFile>>,
    states: Vec<RoomState>,
    watched: Vec<Watched>,
    files: Vec<Option<RoomPath>>,
}

impl Rooms {
    /// None yet.
    pub(crate) fn new(alloc: Global) -> Rooms
        ensures unreserved { All (λ it. it.doc.reserved ≡ 0) result.openings.items }
        ensures openings { length result.openings.items ≡ length result.names.items }
        ensures turns { length result.turns.items ≡ length result.names.items }
        ensures states { length result.states.items ≡ length result.names.items }
        ensures watched { length result.watched.items ≡ length result.names.items }
    {
        Rooms {
            names: Vec::new(alloc),
            openings: Vec::new(alloc),
            turns: Vec::new(alloc),
            states: Vec::new(alloc),
            watched: Vec::new(alloc),
            files: Vec::new(alloc),
        }
    }

    /// Adds one. After an error there may be a part of it.
    pub(crate) fn add(&mut self, room: Room) -> Result<(), AllocError>
        requires room { room.opening.doc.reserved ≡ 0 }
        requires unreserved { All (λ it. it.doc.reserved ≡ 0) self.old.openings.items }
        requires openings { length self.old.openings.items ≡ length self.old.names.items }
        requires turns { length self.old.turns.items ≡ length self.old.names.items }
        requires states { length self.old.states.items ≡ length self.old.names.items }
        requires watched { length self.old.watched.items ≡ length self.old.names.items }
        ensures unreserved { OnOk result (All (λ it. it.doc.reserved ≡ 0) self.new.openings.items) }
        ensures openings { OnOk result (length self.new.openings.items ≡ length self.new.names.items) }
        ensures turns { OnOk result (length self.new.turns.items ≡ length self.new.names.items) }
        ensures states { OnOk result (length self.new.states.items ≡ length self.new.names.items) }
        ensures watched { OnOk result (length self.new.watched.items ≡ length self.new.names.items) }
    {
        let Room {
            name,
            opening,
            turns,
            state,
            watched,
            file,
        } = room;
        self.names.push(name)?;
        self.openings.push(opening)?;
        self.turns.push(turns)?;
        self.states.push(state)?;
        self.watched.push(watched)?;
        self.files.push(file)?;
        Ok(())
    }
}

/// A room before its hall is there.
#[derive(Drop)]
pub(crate) struct Room {
    name: String,
    pub(crate) opening: Opening,
    turns: RoomTurns<HostFile>,
    state: RoomState,
    watched: Watched,
    file: Option<RoomPath>,
}

// The room with this name, whose place is told: over what its file in the folder stands for, if there is a folder.
fn open_room<R: Files<File = File> + Log>(
    rt: &R,
    alloc: Global,
    folder: Option<&str>,
    name: &String,
    place: usize,
    site: Option<Site>,
) -> Result<Room, Stop>
    ensures unreserved { IfOk result (λ room. room.opening.doc.reserved ≡ 0) }
    ensures fits { (result ≡ Err (Stop.Refused Refusal.BadField)) → ⊥ }
{
    let Some(folder) = folder else {
        let doc = Doc::new(alloc);
        let Some(site) = site.or(free_site(&doc)) else {
            return Err(Stop::Refused(Refusal::SiteUsed));
        };
        let opening = Opening { doc, site };
        let state = state_of(name, &opening)?;
        return room_of(name, state, opening, RoomTurns::new(place, None), None);
    };
    let RoomFile {
        path,
        file,
        node,
        doc,
    } = open_file(rt, alloc, folder, name.as_str(), place)?;
    let site = choose_site(rt, path.as_str(), &doc, site)?;
    let opening = Opening { doc, site };
    let state = state_of(name, &opening)?;
    let turns = RoomTurns::new(place, Some(file));
    room_of(name, state, opening, turns, Some((path, node)))
}

// How a room with this name is, of which nothing was seen yet.
fn state_of(name: &String, opening: &Opening) -> Result<RoomState, Stop>
    ensures fits { (result ≡ Err (Stop.Refused Refusal.BadField)) → ⊥ }
{
    match name.clone() {
        Ok(name) => {
            let had_others = shows_others(&opening.doc);
            Ok(RoomState::new(name, opening.site, *opening.doc.known(), had_others))
        }
        Err(_) => Err(Stop::Fault(ServeFault::Memory)),
    }
}

/// The room with this name, and the path and node of its file, if it has one.
pub(crate) fn room_of(
    name: &String,
    state: RoomState,
    opening: Opening,
    turns: RoomTurns<HostFile>,
    file: Option<(String, Node)>,
) -> Result<Room, Stop>
    ensures opening { IfOk result (λ room. room.opening ≡ opening) }
    ensures fits { (result ≡ Err (Stop.Refused Refusal.BadField)) → ⊥ }
{
    let Ok(watched) = name.clone() else {
        return Err(Stop::Fault(ServeFault::Memory));
    };
    let Ok(name) = name.clone() else {
        return Err(Stop::Fault(ServeFault::Memory));
    };
    let (path, file) = match file {
        Some((path, node)) => match path.clone() {
            Ok(copy) => (Some(copy), Some(RoomPath::new(path, node))),
            Err(_) => return Err(Stop::Fault(ServeFault::Memory)),
        },
        None => (None, None),
    };
    Ok(Room {
        name,
        state,
        opening,
        turns,
        watched: Watched::new(watched, path),
        file,
    })
}

// The site that is named, or the least that the log has no operation of. It is warned of where the log has operations of it, where none is
// left, and where few are.
fn choose_site<R: Log>(rt: &R, path: &str, doc: &Doc, named: Option<Site>) -> Result<Site, Stop>
    ensures fits { (result ≡ Err (Stop.Refused Refusal.BadField)) → ⊥ }
{
    let Some(site) = named.or(free_site(doc)) else {
        warn!(rt; "{path}: each of the 32 sites has operations in its log: go on in a new document with its text (examples/renew.py)");
        return Err(Stop::Refused(Refusal::SiteUsed));
    };
    if !lacks_site(doc, site) {
        warn!(rt; "{path}: its log has operations of site {}", site.number());
        return Err(Stop::Refused(Refusal::SiteUsed));
    }
    let used = used_sites(doc.known());
    if used >= MANY_SITES {
        warn!(rt; "{path}: {used} of the 32 sites have operations in its log");
    }
    Ok(site)
}
