//! A thread for each room looks at it while connections are served: it keeps what the room's log has gained and nobody waits for, tries
//! again where a turn has failed, and warns of what comes to an end.
ghost use Rattle.std.specs.Prelude.{◌≡◌, ◌<◌, length};
ghost use Rattle.ws_server.specs.Halls.{rooms_of, IsHallPassOf};

use crate::serving::Shared;
use crate::state::RoomState;
use crate::warnings::{Seldom, Warnings};
use kept_rooms::TurnFault;
use shared_room::Look;
use std::alloc::{AllocError, Global};
use std::sync::{Condvar, CondvarTimeouts, Mutex, Wait};
use std::time::{Clock, Duration};
use ws_server::HallPass;

/// How often a room is looked at at most, by who watches it and where answers wait: each millisecond for more than 30 years.
pub(crate) const LOOKS: u64 = 1 << 40;

// The module under whose name it is warned.
const TARGET: &str = "rgatext::watch";

// From so much on it is warned of: seven eighths of what a room takes.
pub(crate) const MANY_CALLS: u32 = 917_504;

pub(crate) const MANY_OPERATIONS: u32 = 114_688;

pub(crate) const MANY_SESSIONS: u32 = 56;

// So many milliseconds pass before a turn that failed is tried again, while answers wait for it; then the last of them.
const PAUSES: [u64; 7] = [100, 200, 400, 800, 1_600, 3_200, 5_000];

/// Whether all connections have ended, which one thread tells another.
#[derive(Drop)]
pub(crate) struct Ended {
    has_come: Mutex<bool>,
    told: Condvar,
}

impl Ended {
    /// Not yet.
    pub(crate) fn new() -> Ended {
        Ended {
            has_come: Mutex::new(false),
            told: Condvar::new(),
        }
    }

    /// Tells it.
    pub(crate) fn tell<R: Wait>(&self, rt: &R) {
        *self.has_come.lock(rt) = true;
        self.told.notify_all();
    }

    /// Waits until it is told, or the time is over: whether it is told.
    pub(crate) fn wait<R: Wait + Clock>(&self, rt: &R, time: Duration) -> bool {
        let guard = self.has_come.lock(rt);
        let (guard, _) = self
            .told
            .wait_timeout_while(rt, guard, time, |has_come| !*has_come);
        *guard
    }
}

/// When the turns of a room are taken: each so often, and sooner where answers wait for them.
#[derive(Clone, Copy)]
pub(crate) struct Rhythm {
    pub(crate) every: Duration,
    pub(crate) do_answers_wait: bool,
}

impl Rhythm {
    // How long it is until the next turn, after so many that failed one behind the other.
    fn pause(self, failures: usize) -> Duration {
        if self.do_answers_wait {
            Duration::from_millis(PAUSES[failures.min(PAUSES.len() - 1)])
        } else {
            self.every
        }
    }
}

/// A room as it is watched: its name, the path of its file, if it has one, how many turns have failed since the last one that didn't, and
/// what was warned of, and when.
#[derive(Drop)]
pub(crate) struct Watched {
    name: String,
    path: Option<String>,
    failures: usize,
    told: Seldom,
    has_many_calls: bool,
    has_many_operations: bool,
    has_many_sessions: bool,
}

impl Watched {
    /// A room of which nothing was warned yet.
    pub(crate) fn new(name: String, path: Option<String>) -> Watched {
        Watched {
            name,
            path,
            failures: 0,
            told: Seldom::new(),
            has_many_calls: false,
            has_many_operations: false,
            has_many_sessions: false,
        }
    }

    // Notes and warns of what a turn has seen, or why it kept nothing.
    fn tell<R: Wait + Clock>(
        &mut self,
        rt: &R,
        to: &To<'_>,
        turned: Result<Look, TurnFault>,
        do_answers_wait: bool,
    ) {
        match turned {
            Ok(look) => {
                to.room.note(rt, &look);
                self.succeed(rt, to);
                self.warn(rt, to, &look);
            }
            Err(why) => self.fail(rt, to, &why, do_answers_wait),
        }
    }

    // A turn that kept what there was, where some before it had failed, is told of.
    fn succeed<R: Wait>(&mut self, rt: &R, to: &To<'_>) {
        if let (Some(path), true) = (&self.path, self.failures > 0) {
            to.add(rt, format!(in to.alloc; "{path}: it is kept again"));
        }
        self.failures = 0;
        self.told = Seldom::new();
    }

    // A turn that kept nothing, where something was to be kept, is warned of, and again each minute until one succeeds.
    fn fail<R: Wait + Clock>(
        &mut self,
        rt: &R,
        to: &To<'_>,
        why: &TurnFault,
        do_answers_wait: bool,
    ) {
        let Some(path) = &self.path else {
            return;
        };
        self.failures = self.failures.saturating_add(1);
        to.room.fail(rt, format!(in to.alloc; "{why}").ok());
        if !self.told.is_due(rt) {
            return;
        }
        let text = if do_answers_wait {
            format!(in to.alloc; "{path}: {why}; it is tried again, and answers wait")
        } else {
            format!(in to.alloc; "{path}: {why}; it is tried again at each turn")
        };
        to.add(rt, text);
    }

    // Warns once of each limit that comes near, where the room is kept.
    fn warn<R: Wait>(&mut self, rt: &R, to: &To<'_>, look: &Look) {
        if self.path.is_none() {
            return;
        }
        let name = &self.name;
        if look.calls >= MANY_CALLS && !self.has_many_calls {
            self.has_many_calls = true;
            let text = format!(in to.alloc;
                "room {name}: {} of 1048576 calls are recorded",
                look.calls
            );
            to.add(rt, text);
        }
        if look.version >= MANY_OPERATIONS && !self.has_many_operations {
            self.has_many_operations = true;
            let text = format!(in to.alloc;
                "room {name}: its log has {} of 131072 operations",
                look.version
            );
            to.add(rt, text);
        }
        if look.sessions >= MANY_SESSIONS && !self.has_many_sessions {
            self.has_many_sessions = true;
            let text = format!(in to.alloc;
                "room {name}: {} of 64 sessions are there",
                look.sessions
            );
            to.add(rt, text);
        }
    }
}

// To whom it is told how a room is.
#[derive(Clone, Copy)]
struct To<'a> {
    alloc: Global,
    room: &'a RoomState,
    warnings: &'a Warnings,
}

impl To<'_> {
    fn add<R: Wait>(&self, rt: &R, text: Result<String, AllocError>) {
        self.warnings.add(rt, TARGET, text);
    }
}

/// Takes turns of the room at a place, each after a rest, and a last one once all connections have ended: whether all that was to be kept
/// is.
pub(crate) fn watch<R: Wait + Clock>(
    rt: &R,
    alloc: Global,
    shared: Shared<'_>,
    mut pass: HallPass,
    mut room: Watched,
    place: usize,
) -> bool
    requires pass { IsHallPassOf shared.hall.now pass }
    requires within { place < length (rooms_of shared.hall.now) }
    requires counted { length shared.turns.now ≡ length (rooms_of shared.hall.now) }
    requires told { length shared.rooms.now ≡ length (rooms_of shared.hall.now) }
{
    let Shared {
        hall,
        turns,
        rooms,
        connections: _,
        warnings,
        turned_away: _,
        is_ending: _,
        rhythm,
        origins: _,
    } = shared;
    let turns = &turns[place];
    let room_state = &rooms[place];
    let to = To {
        alloc,
        room: room_state,
        warnings,
    };
    for _ in rt.forever() {
        let is_last = if room.failures > 0 {
            turns.pause(rt, rhythm.pause(room.failures - 1))
        } else {
            turns.rest(rt, rhythm.every)
        };
        let turned = turns.take(rt, alloc, hall, &mut pass, place);
        room.tell(rt, &to, turned, rhythm.do_answers_wait);
        if is_last {
            return room.failures == 0;
        }
    }
    unreachable!()
}
