//! What `serve` is to do, and a connection that is served to its end.
ghost use Rattle.std.specs.Prelude.{◌≡◌, length};
ghost use Rattle.ws_server.specs.Halls.{rooms_of, IsHallPassOf};

use crate::ends::{Connections, Guest, Limit};
use crate::state::RoomState;
use crate::warnings::{Seldom, Warnings};
use crate::watch::Rhythm;
use keeper::HostFile;
use kept_rooms::{KeptConnection, RoomTurns, serve_kept};
use line_engine::ServeFault;
use opid::Site;
use std::alloc::Global;
use std::io::Write;
use std::sync::atomic::{AtomicBool, Ordering};
use std::sync::{Arc, Mutex, Wait};
use std::time::{Clock, Duration};
use ws_server::{
    Conn, FORBIDDEN, Gate, Hall, HallPass, HandshakeFault, Origins, serve_channel, shake_hands,
};

// The module under whose name `serve` warns.
pub(crate) const TARGET: &str = "rgatext::host";

// How many calls a connection may make in each room.
const DRAWS: u64 = 2_097_152;

// The same where its answers wait: each takes a few.
const KEPT_DRAWS: u64 = 1 << 32;

// How many connections are accepted where no number is named.
const CONNECTIONS: u32 = 65_536;

// How often rooms are looked at where no other number of seconds is named.
const SECONDS: u32 = 5;

/// What `serve` is to do, as the plan tells it.
#[derive(Clone, Copy)]
pub(crate) struct Serving<'a> {
    pub(crate) port: u16,
    pub(crate) site: Option<Site>,
    pub(crate) conns: Option<u32>,
    pub(crate) keep: Option<&'a str>,
    pub(crate) every: Option<u32>,
    pub(crate) does_renew: bool,
    pub(crate) origins: &'a [String],
    pub(crate) does_report: bool,
    pub(crate) names: &'a [String],
}

impl<'a> Serving<'a> {
    /// Whether its rooms are kept. Where they aren't nothing is warned of but how connections ended.
    pub(crate) fn is_kept(&self) -> bool {
        self.keep.is_some()
    }

    /// How many connections are let in: so many as are named, or where rooms are kept the most there may be at one time.
    pub(crate) fn limit(&self) -> Limit {
        Limit {
            most: self.conns.unwrap_or(CONNECTIONS),
            is_at_one_time: self.is_kept() && self.conns.is_none(),
            may_refuse: self.are_origins_looked_at(),
        }
    }

    // Whether it depends on its origin if a page may connect: where rooms are kept, or an origin is named.
    fn are_origins_looked_at(&self) -> bool {
        self.is_kept() || !self.origins.is_empty()
    }

    /// Which pages may connect.
    pub(crate) fn origins(&self) -> Origins<'a> {
        if self.are_origins_looked_at() {
            Origins::Named(self.origins)
        } else {
            Origins::All
        }
    }

    /// How many seconds pass at most between two looks at a room.
    pub(crate) fn seconds(&self) -> u32 {
        self.every.unwrap_or(SECONDS)
    }

    /// When the rooms are looked at.
    pub(crate) fn rhythm(&self) -> Rhythm {
        Rhythm {
            every: Duration::from_secs(self.seconds() as u64),
            do_answers_wait: self.is_kept() && self.every.is_none(),
        }
    }
}

// A gate that lets everything pass.
#[derive(Drop)]
struct Open;

impl Gate for Open {
    ghost told_before = { λ _ _ _. Unit {0} };

    ghost told_after = { λ _ _ _. Unit {0} };

    fn before(&mut self, _n: u64) {}

    fn after(&mut self, _n: u64) {}
}

/// What the threads of connections share.
#[derive(Clone, Copy)]
pub(crate) struct Shared<'a> {
    pub(crate) hall: &'a Hall,
    pub(crate) turns: &'a [RoomTurns<HostFile>],
    pub(crate) rooms: &'a [RoomState],
    pub(crate) connections: &'a Connections,
    pub(crate) warnings: &'a Warnings,
    // When it was told that a page was turned away.
    pub(crate) turned_away: &'a Mutex<Seldom>,
    pub(crate) is_ending: &'a AtomicBool,
    pub(crate) rhythm: Rhythm,
    pub(crate) origins: Origins<'a>,
}

impl Shared<'_> {
    /// How many turns a connection may take in each room. Where its answers wait each look takes one.
    pub(crate) fn draws(&self) -> u64 {
        if self.rhythm.do_answers_wait {
            KEPT_DRAWS
        } else {
            DRAWS
        }
    }

    // A page was turned away, which is warned of once a minute at most.
    fn turn_away<R: Wait + Clock>(&self, rt: &R, alloc: Global, place: usize) {
        self.connections.refuse(rt, place);
        if self.turned_away.lock(rt).is_due(rt) {
            let text = format!(in alloc;
                "a page of another origin was turned away: --origin names those that may connect"
            );
            self.warnings.add(rt, TARGET, text);
        }
    }
}

/// Serves one connection to its end, and notes how that was. Where the server ends, it is no fault that a connection is hung up.
pub(crate) fn serve<R: Wait + Clock>(
    rt: &R,
    alloc: Global,
    shared: Shared<'_>,
    pass: HallPass,
    guest: Arc<Guest, Global>,
    place: usize,
)
    requires pass { IsHallPassOf shared.hall.now pass }
    requires counted { length shared.turns.now ≡ length (rooms_of shared.hall.now) }
{
    let served = if shared.rhythm.do_answers_wait {
        serve_waiting(rt, alloc, shared, pass, &guest)
    } else {
        serve_at_once(rt, alloc, shared, pass, &guest)
    };
    let end = match served {
        Ok(end) => end,
        Err(HandshakeFault::Origin) => {
            shared.turn_away(rt, alloc, place);
            return;
        }
        Err(why) => {
            shared.connections.decide(rt);
            Err(why.fault())
        }
    };
    let end = match end {
        Err(why) if !shared.is_ending.load(Ordering::SeqCst) => Some(why),
        _ => None,
    };
    shared.connections.end(rt, place, end);
}

// Serves a connection whose answers wait until they are kept: how it ended.
fn serve_waiting<R: Wait + Clock>(
    rt: &R,
    alloc: Global,
    shared: Shared<'_>,
    pass: HallPass,
    guest: &Guest,
) -> Result<Result<(), ServeFault>, HandshakeFault>
    requires pass { IsHallPassOf shared.hall.now pass }
    requires counted { length shared.turns.now ≡ length (rooms_of shared.hall.now) }
{
    let mut stream = &guest.stream;
    let mut it = match KeptConnection::open(alloc, shared.hall, pass, stream, shared.origins) {
        Ok(it) => it,
        Err(HandshakeFault::Origin) => {
            // (what the handshake answered waits in a stream that is gone)
            let _ = stream.write_all(FORBIDDEN.as_bytes());
            return Err(HandshakeFault::Origin);
        }
        Err(why) => return Err(why),
    };
    shared.connections.decide(rt);
    Ok(serve_kept(
        rt,
        alloc,
        shared.turns,
        &mut it,
        &mut Open,
        shared.is_ending,
        &guest.shown,
    ))
}

// Serves a connection whose answers wait for nothing: how it ended.
fn serve_at_once<R: Wait>(
    rt: &R,
    alloc: Global,
    shared: Shared<'_>,
    mut pass: HallPass,
    guest: &Guest,
) -> Result<Result<(), ServeFault>, HandshakeFault>
    requires pass { IsHallPassOf shared.hall.now pass }
{
    let mut socket = match shake_hands(alloc, &guest.stream, shared.origins) {
        Ok(socket) => socket,
        Err(why) => return Err(why),
    };
    shared.connections.decide(rt);
    let mut conn = Conn::new(alloc);
    Ok(serve_channel(
        rt,
        alloc,
        shared.hall,
        &mut pass,
        &mut conn,
        &mut socket,
        &mut Open,
        &guest.shown,
    ))
}
