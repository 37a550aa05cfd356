//! How the rooms are, for whoever looks from outside: a file in their folder, and a line on standard error.
use crate::ends::Connections;
use crate::sites::{MANY_SITES, used_sites};
use crate::warnings::Seldom;
use crate::watch::{MANY_CALLS, MANY_OPERATIONS};
use causal_clock::Clock as Known;
use keeper::HostFile;
use kept_rooms::RoomTurns;
use opid::{SITES, Site};
use serde_json::{Value, json};
use shared_room::Look;
use std::alloc::{AllocError, Global};
use std::fs::{File, Files};
use std::sync::{Mutex, Wait};
use std::time::{Clock, SystemTime, UNIX_EPOCH};
use std::{fs, io};

// What was seen of a room last, and why it was kept no further.
#[derive(Drop)]
struct Seen {
    operations: u32,
    calls: u32,
    sessions: u32,
    fault: Option<String>,
    // When it was said last that its log nears a limit, and that its history does; and why it can't begin anew, and when that was told.
    renewal: Seldom,
    running_out: Seldom,
    stays: Option<String>,
    told: Seldom,
}

/// A room as it is told of.
#[derive(Drop)]
pub(crate) struct RoomState {
    pub(crate) name: String,
    pub(crate) site: Site,
    // What its log had when it was opened, and whether a peer had put something there before.
    begun: Known,
    had_others: bool,
    seen: Mutex<Seen>,
}

impl RoomState {
    /// A room of which nothing was seen yet, which was opened over a log of these operations, and whether that shows others' before.
    pub(crate) fn new(name: String, site: Site, begun: Known, had_others: bool) -> RoomState {
        RoomState {
            name,
            site,
            begun,
            had_others,
            seen: Mutex::new(Seen {
                operations: begun.sum(),
                calls: 0,
                sessions: 0,
                fault: None,
                renewal: Seldom::more_and_more(),
                running_out: Seldom::new(),
                stays: None,
                told: Seldom::hourly(),
            }),
        }
    }

    /// The same room in the next run, which was opened at a site over a log of these operations: its own, or a new document's.
    pub(crate) fn next(self, site: Site, begun: Known, is_new: bool) -> RoomState {
        let had_others = !is_new && self.has_others(&begun);
        let RoomState { name, seen, .. } = self;
        let Seen {
            renewal,
            stays,
            told,
            ..
        } = seen.into_inner();
        let (renewal, stays, told) = if is_new {
            (Seldom::more_and_more(), None, Seldom::hourly())
        } else {
            (renewal, stays, told)
        };
        RoomState {
            name,
            site,
            begun,
            had_others,
            seen: Mutex::new(Seen {
                operations: begun.sum(),
                calls: 0,
                sessions: 0,
                fault: None,
                renewal,
                running_out: Seldom::new(),
                stays,
                told,
            }),
        }
    }

    /// This was seen of it, and kept.
    pub(crate) fn note<R: Wait>(&self, rt: &R, look: &Look) {
        let mut seen = self.seen.lock(rt);
        seen.operations = look.version;
        seen.calls = look.calls;
        seen.sessions = look.sessions;
        seen.fault = None;
    }

    /// It was kept no further, for this reason.
    pub(crate) fn fail<R: Wait>(&self, rt: &R, why: Option<String>) {
        self.seen.lock(rt).fault = why;
    }

    /// Whether its log nears a limit, as a look tells, which isn't said again for five minutes and then more, or its history does, for one.
    pub(crate) fn runs_out<R: Wait + Clock>(&self, rt: &R, look: &Look) -> bool {
        let mut seen = self.seen.lock(rt);
        let does_log = nears_limit(look.version, &self.begun) && seen.renewal.is_due(rt);
        does_log || (look.calls >= MANY_CALLS && seen.running_out.is_due(rt))
    }

    /// It can't begin anew, for this reason.
    pub(crate) fn stay<R: Wait>(&self, rt: &R, why: Option<String>) {
        self.seen.lock(rt).stays = why;
    }

    /// Whether it is to be warned of that it can't begin anew, which isn't said again for an hour.
    pub(crate) fn is_to_be_told<R: Wait + Clock>(&self, rt: &R) -> bool {
        self.seen.lock(rt).told.is_due(rt)
    }

    /// Whether a peer has put operations into a log of these: it has more than at the start from other sites than its own, or had before.
    pub(crate) fn has_others(&self, known: &Known) -> bool {
        if self.had_others {
            return true;
        }
        for number in 0..SITES as u8 {
            if let Ok(site) = Site::new(number) {
                if site != self.site && known.entry(site) > self.begun.entry(site) {
                    return true;
                }
            }
        }
        false
    }

    // As a JSON object, with how many operations are kept and how many connections have opened it.
    fn told<R: Wait>(
        &self,
        rt: &R,
        alloc: Global,
        kept: u32,
        connections: u32,
    ) -> Result<Value, AllocError> {
        let seen = self.seen.lock(rt);
        let fault = match &seen.fault {
            Some(why) => json!(in alloc; why.as_str())?,
            None => json!(in alloc; null)?,
        };
        let mut told = json!(in alloc; {
            "name": self.name.as_str(),
            "site": self.site.number(),
            "operations": seen.operations,
            "calls": seen.calls,
            "sessions": seen.sessions,
            "connections": connections,
            "kept": kept,
            "fault": fault
        })?;
        if let (Some(why), Some(all)) = (&seen.stays, told.as_object_mut()) {
            let why = json!(in alloc; why.as_str())?;
            all.insert(String::from_str(alloc, "renewal")?, why)?;
        }
        Ok(told)
    }
}

/// Whether a log of so many operations, of these sites, nears its limit.
pub(crate) fn nears_limit(operations: u32, known: &Known) -> bool {
    operations >= MANY_OPERATIONS || used_sites(known) >= MANY_SITES
}

/// How all rooms are.
#[derive(Clone, Copy)]
pub(crate) struct State<'a> {
    pub(crate) rooms: &'a [RoomState],
    pub(crate) turns: &'a [RoomTurns<HostFile>],
    pub(crate) connections: &'a Connections,
}

impl State<'_> {
    /// As a JSON object, but for the time: how many connections are there and have failed, and each room.
    pub(crate) fn told<R: Wait>(self, rt: &R, alloc: Global) -> Result<Value, AllocError> {
        let count = self.connections.count(rt, alloc, self.rooms.len())?;
        let mut rooms = Value::Array(Vec::new(alloc));
        for ((room, turns), inside) in self.rooms.iter().zip(self.turns).zip(&count.inside) {
            let told = room.told(rt, alloc, turns.kept(rt).0, *inside)?;
            if let Some(all) = rooms.as_array_mut() {
                all.push(told)?;
            }
        }
        json!(in alloc; {
            "connections": count.there,
            "faults": count.faults,
            "rooms": rooms
        })
    }

    /// As a line for standard error.
    pub(crate) fn line<R: Wait>(self, rt: &R, alloc: Global) -> Result<String, AllocError> {
        let count = self.connections.count(rt, alloc, self.rooms.len())?;
        let mut line = format!(in alloc;
            "{} connections are there, {} have failed",
            count.there, count.faults
        )?;
        for ((room, turns), inside) in self.rooms.iter().zip(self.turns).zip(&count.inside) {
            let kept = turns.kept(rt).0;
            let seen = room.seen.lock(rt);
            let more = format!(in alloc;
                "; room {}: {} operations, {kept} of them kept, {} calls, {} sessions, {inside} connections",
                room.name, seen.operations, seen.calls, seen.sessions
            )?;
            line.push_str(more.as_str())?;
        }
        Ok(line)
    }
}

/// The file in a folder that tells how all rooms are, what it told last, and how many looks ago.
#[derive(Drop)]
pub(crate) struct StateFile<'a> {
    folder: &'a str,
    told: String,
    age: u32,
    // After so many looks it is written anew, though nothing has changed.
    oldest: u32,
}

impl<'a> StateFile<'a> {
    /// A folder's, which tells nothing yet, and is written at each of so many looks at least.
    pub(crate) fn new(alloc: Global, folder: &'a str, oldest: u32) -> StateFile<'a> {
        StateFile {
            folder,
            told: String::new(alloc),
            age: 0,
            oldest,
        }
    }

    /// A look: where something has changed, or it is old enough, it is written anew in one step, with the time in seconds since 1970.
    pub(crate) fn renew<R: Files<File = File> + Clock + Wait>(
        &mut self,
        rt: &R,
        alloc: Global,
        state: State<'_>,
    ) -> io::Result<()> {
        let mut value = state.told(rt, alloc)?;
        let told = value.to_string(alloc)?;
        self.age = self.age.saturating_add(1);
        if told == self.told && self.age < self.oldest {
            return Ok(());
        }
        let since = SystemTime::now(rt)?.duration_since(UNIX_EPOCH);
        let time = json!(in alloc; since.unwrap_or_default().as_secs())?;
        if let Some(all) = value.as_object_mut() {
            all.insert(String::from_str(alloc, "time")?, time)?;
        }
        let mut text = value.to_string(alloc)?;
        text.push_str("\n")?;
        let folder = self.folder;
        let path = format!(in alloc; "{folder}/state.json")?;
        let next = format!(in alloc; "{folder}/state.json.new")?;
        fs::write(rt, next.as_str(), text.as_str())?;
        fs::rename(rt, next.as_str(), path.as_str())?;
        self.told = told;
        self.age = 0;
        Ok(())
    }
}
