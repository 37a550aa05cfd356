//! The folder while its rooms are served: the file that ends the server is looked for, the rooms' files are looked after, and it is told
//! how the rooms are.
ghost use Rattle.std.specs.Prelude.{◌≡◌, ◌<◌, length};
ghost use Rattle.ws_server.specs.Halls.{rooms_of, IsHallPassOf};

use crate::ends::Connections;
use crate::renewing::{Left, are_well, prepare};
use crate::room_path::RoomPath;
use crate::serving::Shared;
use crate::state::{State, StateFile};
use crate::warnings::Seldom;
use crate::watch::Ended;
use log::{Log, warn};
use std::alloc::Global;
use std::fs::{File, Files};
use std::net::{Net, Shutdown, TcpListener, TcpStream};
use std::sync::Wait;
use std::sync::atomic::Ordering;
use std::time::{Clock, Duration};
use std::{fs, io};
use ws_server::HallPass;

// The module under whose name it is warned.
const TARGET: &str = "rgatext::folder";

// How often the folder is looked at, in seconds.
const LOOKS: u64 = 1;

// How often a connection is hung up before it is cut off, and how many milliseconds pass between.
const PATIENCE: u32 = 5;

const STEP: u64 = 100;

/// The folder of a server that keeps its rooms.
#[derive(Drop)]
pub(crate) struct Folder<'a> {
    path: &'a str,
    // The path of the file that ends the server.
    stop: &'a str,
    // The path of the file that has the rooms begin anew, if one may.
    renew: Option<String>,
    files: Vec<Option<RoomPath>>,
    state: StateFile<'a>,
    does_report: bool,
    // When it was told last how the rooms are, that this can't be written, that the file can't be taken away, and that no room begins anew.
    told: Seldom,
    failed: Seldom,
    stays: Seldom,
    waits: Seldom,
}

/// Why the folder isn't tended any more: all connections have ended, or the file is there that ends the server, or rooms begin anew.
#[derive(Drop)]
pub(crate) enum Tended {
    Ended,
    Stop,
    Renew(Vec<Left>),
}

impl Tended {
    /// Whether all connections have ended.
    pub(crate) fn has_ended(&self) -> bool {
        matches!(self, Tended::Ended)
    }
}

impl<'a> Folder<'a> {
    /// The folder at a path, the paths of the files in it that end the server and have rooms begin anew, the rooms' files, and the one that
    /// tells of them.
    pub(crate) fn new(
        path: &'a str,
        stop: &'a str,
        renew: Option<String>,
        files: Vec<Option<RoomPath>>,
        state: StateFile<'a>,
        does_report: bool,
    ) -> Folder<'a> {
        Folder {
            path,
            stop,
            renew,
            files,
            state,
            does_report,
            told: Seldom::new(),
            failed: Seldom::new(),
            stays: Seldom::new(),
            waits: Seldom::hourly(),
        }
    }

    /// The rooms' files.
    pub(crate) fn into_files(self) -> Vec<Option<RoomPath>> {
        self.files
    }

    // Whether rooms may begin anew now. Where one isn't kept that is warned of, each hour.
    fn may_renew<R: Clock + Wait>(&mut self, rt: &R, alloc: Global, shared: Shared<'_>) -> bool {
        if self.renew.is_none() || are_well(rt, shared) {
            return self.renew.is_some();
        }
        if self.waits.is_due(rt) {
            let text = format!(in alloc; "no room begins anew before all are kept again");
            shared.warnings.add(rt, TARGET, text);
        }
        false
    }

    // Whether all rooms are to begin anew: the file that asks for it is there, and is taken away.
    fn is_renewal_asked<R: Files<File = File> + Clock + Wait>(
        &mut self,
        rt: &R,
        alloc: Global,
        shared: Shared<'_>,
    ) -> bool {
        let Some(path) = &self.renew else {
            return false;
        };
        if !fs::exists(rt, path.as_str()).unwrap_or(false) {
            return false;
        }
        match fs::remove_file(rt, path.as_str()) {
            Ok(()) => true,
            Err(why) => {
                if self.stays.is_due(rt) {
                    let text = format!(in alloc; "{path}: {why}; no room begins anew for it");
                    shared.warnings.add(rt, TARGET, text);
                }
                false
            }
        }
    }

    /// Looks after the rooms' files, and tells how the rooms are, by a look each second, until all connections have ended, the file is
    /// there that ends the server, or rooms are to begin anew.
    pub(crate) fn tend<R: Files<File = File> + Clock + Wait>(
        &mut self,
        rt: &R,
        alloc: Global,
        shared: Shared<'_>,
        pass: &mut HallPass,
        ended: &Ended,
    ) -> Tended
        requires pass { IsHallPassOf shared.hall.now pass.old }
        requires counted { length shared.turns.now ≡ length (rooms_of shared.hall.now) }
        requires told { length shared.rooms.now ≡ length (rooms_of shared.hall.now) }
        ensures pass { IsHallPassOf shared.entry.hall.now pass.new }
    {
        for _ in rt.forever() {
            if ended.wait(rt, Duration::from_secs(LOOKS)) {
                return Tended::Ended;
            }
            self.look_after(rt, alloc, shared, pass);
            self.tell(rt, alloc, shared);
            if fs::exists(rt, self.stop).unwrap_or(false) {
                return Tended::Stop;
            }
            if self.may_renew(rt, alloc, shared) {
                let is_asked = self.is_renewal_asked(rt, alloc, shared);
                if let Some(left) = prepare(rt, alloc, shared, pass, is_asked) {
                    return Tended::Renew(left);
                }
            }
        }
        unreachable!()
    }

    /// Looks after each room's file.
    pub(crate) fn look_after<R: Files<File = File> + Clock + Wait>(
        &mut self,
        rt: &R,
        alloc: Global,
        shared: Shared<'_>,
        pass: &mut HallPass,
    )
        requires pass { IsHallPassOf shared.hall.now pass.old }
        requires counted { length shared.turns.now ≡ length (rooms_of shared.hall.now) }
        ensures pass { IsHallPassOf shared.entry.hall.now pass.new }
    {
        let folder = self.path;
        for place in 0..shared.hall.len() {
            if let Some(Some(it)) = self.files.get_mut(place) {
                if let Some(text) = it.look_after(rt, alloc, folder, shared, pass, place) {
                    shared.warnings.add(rt, TARGET, text);
                }
            }
        }
    }

    // Tells how the rooms are: in the folder, and on standard error each minute, if that was asked for.
    fn tell<R: Files<File = File> + Clock + Wait>(
        &mut self,
        rt: &R,
        alloc: Global,
        shared: Shared<'_>,
    ) {
        let state = State {
            rooms: shared.rooms,
            turns: shared.turns,
            connections: shared.connections,
        };
        if let Err(why) = self.state.renew(rt, alloc, state) {
            if self.failed.is_due(rt) {
                let text = format!(in alloc; "{}/state.json: {why}", self.path);
                shared.warnings.add(rt, TARGET, text);
            }
        }
        if self.does_report && self.told.is_due(rt) {
            shared.warnings.add(rt, TARGET, state.line(rt, alloc));
        }
    }
}

/// Ends a server at a port: nobody else is let in, and each connection is hung up: it answers what it has read and ends, or is cut off
/// after half a second. The rooms' files are looked after meanwhile.
pub(crate) fn hang_up<
    R: Net<Listener = TcpListener, Stream = TcpStream> + Files<File = File> + Clock + Wait,
>(
    rt: &R,
    alloc: Global,
    port: u16,
    folder: &mut Folder<'_>,
    shared: Shared<'_>,
    pass: &mut HallPass,
    ended: &Ended,
)
    requires pass { IsHallPassOf shared.hall.now pass.old }
    requires counted { length shared.turns.now ≡ length (rooms_of shared.hall.now) }
    ensures pass { IsHallPassOf shared.entry.hall.now pass.new }
{
    shared.is_ending.store(true, Ordering::SeqCst);
    shared.connections.close(rt);
    let mut steps = 0u32;
    let mut is_listener_woken = false;
    for _ in rt.forever() {
        // (it waits for a connection, and this is one)
        if !is_listener_woken {
            is_listener_woken = wake_listener(rt, port, shared.connections).is_ok();
        }
        let how = if steps < PATIENCE {
            Shutdown::Read
        } else {
            Shutdown::Both
        };
        shared.connections.hang_up(rt, how);
        folder.look_after(rt, alloc, shared, pass);
        if ended.wait(rt, Duration::from_millis(STEP)) {
            return;
        }
        steps = steps.saturating_add(1);
    }
}

// Connects to the listener at a port, which waits for somebody.
fn wake_listener<R: Net<Stream = TcpStream> + Wait>(
    rt: &R,
    port: u16,
    connections: &Connections,
) -> io::Result<()> {
    let stream = TcpStream::connect(rt, ("127.0.0.1", port))?;
    connections.wake_from(rt, stream.local_addr()?);
    Ok(())
}

/// Takes the file away, where one may end the server and is there. Where that fails it is warned of.
pub(crate) fn remove_stop<R: Files<File = File> + Log>(rt: &R, path: Option<&str>) {
    let Some(path) = path else {
        return;
    };
    if fs::exists(rt, path).unwrap_or(false) {
        if let Err(why) = fs::remove_file(rt, path) {
            warn!(rt; target: TARGET, "{path}: {why}");
        }
    }
}
