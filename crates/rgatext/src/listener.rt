//! The listener: it accepts connections, each of which a thread of its own serves.
ghost use Rattle.std.specs.Prelude.{◌≡◌, length, Err};
ghost use Rattle.std.specs.Thread.{IsSync};
ghost use Rattle.ws_server.specs.Halls.{rooms_of, IsHallPassOf};

use crate::ends::{Connections, Guest};
use crate::serving::{Serving, Shared, TARGET, serve};
use crate::warnings::{Seldom, Warnings};
use commands::Stop;
use line_engine::ServeFault;
use log::{Log, warn};
use opid::Refusal;
use std::alloc::{AllocError, Global};
use std::io::Print;
use std::net::{Net, SocketAddr, TcpListener, TcpStream};
use std::sync::atomic::{AtomicBool, Ordering};
use std::sync::{Arc, Wait};
use std::thread::Threads;
use std::time::{Clock, Duration};
use std::{io, thread};
use thiserror::Error;
use ws_server::{HallPass, ShownRoom};

// How many milliseconds pass before a connection is tried again, at first, and at most.
const SHORTEST: u64 = 100;

const LONGEST: u64 = 5_000;

/// A listener at the port, once it was told of.
pub(crate) fn listen<R: Net<Listener = TcpListener, Stream = TcpStream> + Print + Log>(
    rt: &R,
    serving: &Serving<'_>,
) -> Result<TcpListener, Stop>
    ensures fits { (result ≡ Err (Stop.Refused Refusal.BadField)) → ⊥ }
{
    let port = serving.port;
    let listener = match TcpListener::bind(rt, ("127.0.0.1", port)) {
        Ok(listener) => listener,
        Err(why) => {
            if serving.is_kept() {
                warn!(rt; target: TARGET, "127.0.0.1:{port}: {why}");
            }
            return Err(Stop::Socket);
        }
    };
    match println!(rt; "listening {port}") {
        Ok(()) => Ok(listener),
        Err(_) => Err(Stop::Fault(ServeFault::Write)),
    }
}

/// Serves connections, each by a thread, until all have ended. Once as many were let in as may be in all, or one can't be had where no
/// rooms are kept, nobody listens any more (docs/decisions, P17), which is warned of where rooms are kept; or once the server is to end.
/// Where rooms are kept one that can't be had is tried again after a pause. A thread's handle is given up at once, so that a thread that
/// has ended leaves nothing behind (docs/decisions, P16).
pub(crate) fn serve_all<R: Clock + Threads + Wait + Sync>(
    rt: &R,
    alloc: Global,
    shared: Shared<'_>,
    mut pass: HallPass,
    listener: TcpListener,
    serving: &Serving<'_>,
) -> Result<(), Stop>
    requires pass { IsHallPassOf shared.hall.now pass }
    requires counted { length shared.turns.now ≡ length (rooms_of shared.hall.now) }
    ensures fits { (result ≡ Err (Stop.Refused Refusal.BadField)) → ⊥ }
{
    let draws = shared.draws();
    let served = thread::scope(
        thread::scope_env(),
        rt,
        move |scope| -> Result<(), Stop>
            requires { IsSync R.row × IsHallPassOf shared.hall.now pass
                × (length shared.turns.now ≡ length (rooms_of shared.hall.now)) }
            ensures { (result ≡ Err (Stop.Refused Refusal.BadField)) → ⊥ }
        {
            let mut trouble = Trouble::new();
            for _ in rt.forever() {
                if !shared.connections.wait_for_place(rt) {
                    break;
                }
                let (guest, place) = match accept(rt, alloc, &listener, shared, serving.is_kept()) {
                    Ok(Some(accepted)) => accepted,
                    Ok(None) => return Ok(()),
                    Err(_) if shared.is_ending.load(Ordering::SeqCst) => return Ok(()),
                    Err(why) => {
                        trouble.meet(rt, alloc, shared, serving, why)?;
                        continue;
                    }
                };
                let given = match shared.hall.split(alloc, &mut pass, draws) {
                    Ok(given) => given,
                    Err(Refusal::Memory) => {
                        shared.connections.refuse(rt, place);
                        trouble.meet(rt, alloc, shared, serving, Missed::Memory)?;
                        continue;
                    }
                    Err(why) => return Err(closed(
                        rt,
                        alloc,
                        shared.warnings,
                        serving,
                        Stop::of(why),
                    )),
                };
                let worker = scope.spawn(
                    move ||
                        requires { IsSync R.row × IsHallPassOf shared.hall.now given
                            × (length shared.turns.now ≡ length (rooms_of shared.hall.now)) }
                    { serve(rt, alloc, shared, given, guest, place) },
                );
                if worker.is_err() {
                    shared.connections.refuse(rt, place);
                    trouble.meet(rt, alloc, shared, serving, Missed::Thread)?;
                    continue;
                }
                trouble.pause = SHORTEST;
            }
            if serving.is_kept() && !shared.is_ending.load(Ordering::SeqCst) {
                let most = serving.limit().most;
                let text = format!(in alloc;
                    "the last of {most} connections is accepted: nobody listens any more"
                );
                shared.warnings.add(rt, TARGET, text);
            }
            Ok(())
        },
    );
    fitting(served)
}

// Why a connection can't be had.
#[derive(Debug, Drop, Error)]
enum Missed {
    #[error("{0}")]
    Socket(io::Error),
    #[error("memory was refused")]
    Memory,
    #[error("there is no thread for it")]
    Thread,
}

// How `serve` ends by that.
fn stop_of(why: &Missed) -> Stop
    ensures fits { (result ≡ Stop.Refused Refusal.BadField) → ⊥ }
{
    match why {
        Missed::Memory => Stop::Fault(ServeFault::Memory),
        _ => Stop::Socket,
    }
}

// The next connection, and its place; none where the server ends: one that came is put off then. It sends what it has at once: a reply that
// waits to be longer would hold up a client that sends many requests before it reads.
fn accept<R: Wait>(
    rt: &R,
    alloc: Global,
    listener: &TcpListener,
    shared: Shared<'_>,
    is_kept: bool,
) -> Result<Option<(Arc<Guest, Global>, usize)>, Missed> {
    let connections = shared.connections;
    let (stream, from) = next_stream(rt, listener, connections, shared.is_ending)?;
    if shared.is_ending.load(Ordering::SeqCst) {
        connections.put_off(rt, stream, from);
        return Ok(None);
    }
    // No answer waits for another (docs/decisions, P15). Where this fails the other side has gone, as the first read will tell.
    let _ = stream.set_nodelay(true);
    let shown = ShownRoom::new();
    let Ok(guest) = Arc::new(alloc, Guest { stream, shown }) else {
        return Err(Missed::Memory);
    };
    let Ok(kept) = handle_of(&guest, is_kept) else {
        return Err(Missed::Memory);
    };
    match connections.add(rt, kept) {
        Ok(place) => Ok(Some((guest, place))),
        Err(_) => Err(Missed::Memory),
    }
}

// The stream of the next connection, and from where it comes: the one that was put off, or one that the listener has.
fn next_stream<R: Wait>(
    rt: &R,
    listener: &TcpListener,
    connections: &Connections,
    is_ending: &AtomicBool,
) -> Result<(TcpStream, SocketAddr), Missed> {
    for _ in rt.forever() {
        let (stream, from) = match connections.take_next(rt) {
            Some(next) => next,
            None => match listener.accept() {
                Ok(next) => next,
                Err(why) => return Err(Missed::Socket(why)),
            },
        };
        if is_ending.load(Ordering::SeqCst) || !connections.is_waker(rt, from) {
            return Ok((stream, from));
        }
    }
    unreachable!()
}

// What is done about connections that can't be had.
#[derive(Drop)]
struct Trouble {
    pause: u64,
    told: Seldom,
}

impl Trouble {
    // There was none yet.
    fn new() -> Trouble {
        Trouble {
            pause: SHORTEST,
            told: Seldom::new(),
        }
    }

    // One can't be had. Where rooms are kept it is tried again after a pause, or once another has ended; else it ends the server.
    fn meet<R: Clock + Wait>(
        &mut self,
        rt: &R,
        alloc: Global,
        shared: Shared<'_>,
        serving: &Serving<'_>,
        why: Missed,
    ) -> Result<(), Stop>
        ensures fits { (result ≡ Err (Stop.Refused Refusal.BadField)) → ⊥ }
    {
        if !serving.is_kept() {
            return Err(stop_of(&why));
        }
        if self.told.is_due(rt) {
            let text = format!(in alloc; "a connection can't be had ({why}): it is tried again");
            shared.warnings.add(rt, TARGET, text);
        }
        shared
            .connections
            .wait_for_change(rt, Duration::from_millis(self.pause));
        self.pause = LONGEST.min(self.pause.saturating_mul(2));
        Ok(())
    }
}

/// Warns that nobody listens any more, where rooms are kept, and passes on how `serve` ends by that.
pub(crate) fn closed<R: Wait>(
    rt: &R,
    alloc: Global,
    warnings: &Warnings,
    serving: &Serving<'_>,
    stop: Stop,
) -> Stop
    ensures { result ≡ stop }
{
    if serving.is_kept() {
        let text = format!(in alloc; "no further connection is accepted: {stop}");
        warnings.add(rt, TARGET, text);
    }
    stop
}

// Another handle of the guest, if there is to be one.
fn handle_of(
    guest: &Arc<Guest, Global>,
    is_wanted: bool,
) -> Result<Option<Arc<Guest, Global>>, AllocError> {
    if is_wanted {
        Ok(Some(Arc::try_clone(guest)?))
    } else {
        Ok(None)
    }
}

/// How threads served connections, of which no contract tells. The rooms' names fit, as was looked at before, so that isn't why they ended.
pub(crate) fn fitting<T>(served: Result<T, Stop>) -> Result<T, Stop>
    ensures fits { (result ≡ Err (Stop.Refused Refusal.BadField)) → ⊥ }
{
    match served {
        Err(Stop::Refused(Refusal::BadField)) => Err(Stop::Socket),
        served => served,
    }
}
