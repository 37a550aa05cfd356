//! A room's file at its path, which is looked after while the room is served.
ghost use Rattle.std.specs.Prelude.{◌≡◌, ◌<◌, length};
ghost use Rattle.ws_server.specs.Halls.{rooms_of, IsHallPassOf};

use crate::beside::{NewFile, Node, OtherName, begin_anew, put_in_place};
use crate::serving::Shared;
use crate::warnings::Seldom;
use keeper::{Disk, HostFile, KeptFile};
use kept_rooms::{RoomTurns, TurnFault, keep_turn};
use std::alloc::{AllocError, Global};
use std::fs::{File, Files};
use std::io::ErrorKind;
use std::sync::Wait;
use std::time::Clock;
use std::{fs, io};
use thiserror::Error;
use ws_server::{Hall, HallPass};

/// The path of a room's file, the file that was opened there, and when it was warned last that somebody else has changed it, and that the
/// disk doesn't answer.
#[derive(Drop)]
pub(crate) struct RoomPath {
    path: String,
    node: Node,
    told: Seldom,
    stuck: Seldom,
}

impl RoomPath {
    /// A file that was opened.
    pub(crate) fn new(path: String, node: Node) -> RoomPath {
        RoomPath {
            path,
            node,
            told: Seldom::new(),
            stuck: Seldom::new(),
        }
    }

    /// The path, and the file's node.
    pub(crate) fn into_parts(self) -> (String, Node) {
        let RoomPath { path, node, .. } = self;
        (path, node)
    }

    /// Where somebody else has changed the file of the room at a place, answers wait until the room's whole log is written anew: what there
    /// is to tell of it.
    pub(crate) fn look_after<R: Files<File = File> + Clock + Wait>(
        &mut self,
        rt: &R,
        alloc: Global,
        folder: &str,
        shared: Shared<'_>,
        pass: &mut HallPass,
        place: usize,
    ) -> Option<Result<String, AllocError>>
        requires pass { IsHallPassOf shared.hall.now pass.old }
        requires within { place < length (rooms_of shared.hall.now) }
        requires counted { length shared.turns.now ≡ length (rooms_of shared.hall.now) }
        ensures pass { IsHallPassOf shared.entry.hall.now pass.new }
    {
        let turns = &shared.turns[place];
        if turns.is_stuck(rt) {
            if !self.stuck.is_due(rt) {
                return None;
            }
            let path = self.path.as_str();
            return Some(format!(in alloc; "{path}: the disk doesn't answer; answers wait"));
        }
        let change = self.change(rt, turns)?;
        turns.go_astray(rt);
        match self.write_anew(rt, alloc, folder, shared.hall, turns, pass, place) {
            Ok(aside) => Some(told_anew(alloc, self.path.as_str(), change, aside)),
            Err(why) => {
                if !self.told.is_due(rt) {
                    return None;
                }
                let path = self.path.as_str();
                Some(format!(in alloc;
                    "{path}: {change}, and it can't be written anew: {why}; answers wait"
                ))
            }
        }
    }

    // What somebody else did to the file, if that is seen.
    fn change<R: Files<File = File> + Wait>(
        &self,
        rt: &R,
        turns: &RoomTurns<HostFile>,
    ) -> Option<&'static str> {
        match fs::metadata(rt, self.path.as_str()) {
            Ok(known) if Node::of(&known) != self.node => return Some("another file stands there"),
            Ok(_) => {}
            Err(why) if why.kind() == ErrorKind::NotFound => return Some("it is gone"),
            Err(_) => return Some("it can't be looked at"),
        }
        // (while a turn is taken that one looks)
        let held = turns.try_hold()?;
        match &*held {
            Some(file) if file.disk().check().is_err() => Some("somebody else has changed it"),
            _ => None,
        }
    }

    // Writes the room's whole log to a new file, which is put in place of the old one while nobody takes a turn: what stood there is put
    // aside. Where that fails there is no new one.
    fn write_anew<R: Files<File = File> + Wait>(
        &mut self,
        rt: &R,
        alloc: Global,
        folder: &str,
        hall: &Hall,
        turns: &RoomTurns<HostFile>,
        pass: &mut HallPass,
        place: usize,
    ) -> Result<Option<String>, Unwritten>
        requires pass { IsHallPassOf hall.now pass.old }
        requires within { place < length (rooms_of hall.now) }
        ensures pass { IsHallPassOf hall.now pass.new }
    {
        let path = self.path.as_str();
        let NewFile { name, node, file } = match begin_anew(rt, alloc, path, self.node, place) {
            Ok(new) => new,
            Err(why) => return Err(Unwritten::File(why)),
        };
        let name = name.as_str();
        let written = self.fill(rt, alloc, folder, hall, turns, pass, name, file);
        match &written {
            Ok(_) => self.node = node,
            Err(_) => {
                let _ = fs::remove_file(rt, name);
            }
        }
        written
    }

    // Writes the log to the new file with this name, and puts it in place.
    fn fill<R: Files<File = File> + Wait>(
        &self,
        rt: &R,
        alloc: Global,
        folder: &str,
        hall: &Hall,
        turns: &RoomTurns<HostFile>,
        pass: &mut HallPass,
        name: &str,
        file: KeptFile<HostFile>,
    ) -> Result<Option<String>, Unwritten>
        requires pass { IsHallPassOf hall.now pass.old }
        requires within { file.room < length (rooms_of hall.now) }
        ensures pass { IsHallPassOf hall.now pass.new }
    {
        let mut file = file;
        match keep_turn(rt, alloc, hall, pass, &mut file) {
            Ok(_) => {}
            Err(why) => return Err(Unwritten::Turn(why)),
        }
        let held = turns.hold(rt);
        // (what came meanwhile)
        match keep_turn(rt, alloc, hall, pass, &mut file) {
            Ok(_) => {}
            Err(why) => return Err(Unwritten::Turn(why)),
        }
        let path = self.path.as_str();
        let other = OtherName {
            front: path,
            word: "aside",
        };
        match put_in_place(rt, alloc, folder, path, self.node, name, other) {
            Ok(aside) => {
                turns.replace(rt, held, file);
                Ok(aside)
            }
            Err(why) => Err(Unwritten::File(why)),
        }
    }
}

// Why a room's log isn't written to a new file.
#[derive(Debug, Drop, Error)]
enum Unwritten {
    #[error("{0}")]
    File(io::Error),
    #[error("{0}")]
    Turn(TurnFault),
}

// What is told where a file is begun anew, and what stood there is put aside.
fn told_anew(
    alloc: Global,
    path: &str,
    change: &str,
    aside: Option<String>,
) -> Result<String, AllocError> {
    match aside {
        Some(aside) => format!(in alloc;
            "{path}: {change}: the room's whole log is written anew, and what stood there is in {aside}"
        ),
        None => format!(in alloc; "{path}: {change}: the room's whole log is written anew"),
    }
}
