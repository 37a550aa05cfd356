//! Runs of a server, one after another: each serves its rooms until all connections have ended, or rooms are to begin anew.
ghost use Rattle.std.specs.Prelude.{◌≡◌, ◌<◌, length, All, Err, IfOk, IfSome, None};
ghost use Rattle.std.specs.Thread.{IsSync};
ghost use Rattle.ws_server.specs.Halls.{rooms_of, IsHallPassOf};

use crate::ends::Connections;
use crate::listener::{closed, fitting, serve_all};
use crate::renewing::{Left, follow_all};
use crate::reopening::{EndedRun, reopen_rooms};
use crate::room_path::RoomPath;
use crate::rooms::Opened;
use crate::serving::{Serving, Shared};
use crate::state::StateFile;
use crate::tending::{Folder, Tended, hang_up, remove_stop};
use crate::warnings::{Seldom, Warnings};
use crate::watch::{Ended, LOOKS, Watched, watch};
use commands::Stop;
use kept_rooms::{Assigned, assign_rooms};
use line_engine::ServeFault;
use log::Log;
use opid::Refusal;
use std::alloc::Global;
use std::fs::{File, Files};
use std::net::{Net, TcpListener, TcpStream};
use std::sync::atomic::{AtomicBool, Ordering};
use std::sync::{Mutex, Wait};
use std::thread;
use std::thread::Threads;
use std::time::Clock;
use ws_server::{Hall, HallPass};

/// Serves one run after another, until one has nothing left for a next.
pub(crate) fn serve_runs<
    'a,
    R: Net<Listener = TcpListener, Stream = TcpStream>
        + Files<File = File>
        + Clock
        + Threads
        + Wait
        + Log
        + Sync,
>(
    rt: &R,
    alloc: Global,
    opened: Opened,
    listener: TcpListener,
    serving: &Serving<'a>,
    stop: Option<&'a str>,
    connections: &'a Connections,
    warnings: &'a Warnings,
) -> Result<(), Stop>
    requires pass { IsHallPassOf opened.hall opened.pass }
    requires turns { length opened.turns.items ≡ length (rooms_of opened.hall) }
    requires states { length opened.states.items ≡ length (rooms_of opened.hall) }
    requires watched { length opened.watched.items ≡ length (rooms_of opened.hall) }
    ensures fits { (result ≡ Err (Stop.Refused Refusal.BadField)) → ⊥ }
{
    let mut opened = opened;
    let mut listener = listener;
    for _ in rt.forever() {
        let spare = spare_of(&listener, serving)?;
        match serve_watched(
            rt,
            alloc,
            opened,
            listener,
            serving,
            stop,
            connections,
            warnings,
        ) {
            Ok(Some(next)) => {
                let Some(again) = spare else {
                    return Err(Stop::Socket);
                };
                opened = next;
                listener = again;
            }
            Ok(None) => return Ok(()),
            Err(why) => return Err(why),
        }
    }
    unreachable!()
}

// Another handle of the listener for the next run, where there may be one.
fn spare_of(listener: &TcpListener, serving: &Serving<'_>) -> Result<Option<TcpListener>, Stop>
    ensures fits { (result ≡ Err (Stop.Refused Refusal.BadField)) → ⊥ }
{
    if !serving.does_renew {
        return Ok(None);
    }
    match listener.try_clone() {
        Ok(again) => Ok(Some(again)),
        Err(_) => Err(Stop::Socket),
    }
}

// Serves connections until all have ended, or rooms are to begin anew, and looks at the rooms meanwhile and once more then: the next run's
// rooms, if there is one. Where no thread can be had that looks, no connection is accepted. Where a file may end the server, connections
// are accepted by a thread of its own, since files are for this one.
fn serve_watched<
    'a,
    R: Net<Listener = TcpListener, Stream = TcpStream>
        + Files<File = File>
        + Clock
        + Threads
        + Wait
        + Log
        + Sync,
>(
    rt: &R,
    alloc: Global,
    opened: Opened,
    listener: TcpListener,
    serving: &Serving<'a>,
    stop: Option<&'a str>,
    connections: &'a Connections,
    warnings: &'a Warnings,
) -> Result<Option<Opened>, Stop>
    requires pass { IsHallPassOf opened.hall opened.pass }
    requires turns { length opened.turns.items ≡ length (rooms_of opened.hall) }
    requires states { length opened.states.items ≡ length (rooms_of opened.hall) }
    requires watched { length opened.watched.items ≡ length (rooms_of opened.hall) }
    ensures pass { IfOk result (λ next. IfSome next (λ opened. IsHallPassOf opened.hall opened.pass)) }
    ensures turns { IfOk result (λ next. IfSome next (λ opened. length opened.turns.items ≡ length (rooms_of opened.hall))) }
    ensures states { IfOk result (λ next. IfSome next (λ opened. length opened.states.items ≡ length (rooms_of opened.hall))) }
    ensures watched { IfOk result (λ next. IfSome next (λ opened. length opened.watched.items ≡ length (rooms_of opened.hall))) }
    ensures fits { (result ≡ Err (Stop.Refused Refusal.BadField)) → ⊥ }
{
    let Opened {
        hall,
        mut pass,
        turns,
        states,
        watched,
        files,
        lock,
    } = opened;
    let (ended, is_lost) = (&Ended::new(), &AtomicBool::new(false));
    let folder = folder_of(alloc, serving, stop, files);
    let shared = Shared {
        hall: &hall,
        turns: turns.as_slice(),
        rooms: states.as_slice(),
        connections,
        warnings,
        turned_away: &Mutex::new(Seldom::new()),
        is_ending: &AtomicBool::new(false),
        rhythm: serving.rhythm(),
        origins: serving.origins(),
    };
    let served = thread::scope(
        thread::scope_env(),
        rt,
        move |scope| -> Result<Option<Leaving>, Stop>
            requires { IsSync R.row × IsHallPassOf shared.hall.now pass
                × (length shared.turns.now ≡ length (rooms_of shared.hall.now))
                × (length shared.rooms.now ≡ length (rooms_of shared.hall.now))
                × (length watched.items ≡ length (rooms_of shared.hall.now)) }
            ensures { (result ≡ Err (Stop.Refused Refusal.BadField)) → ⊥ }
        {
            let Ok((rooms, given)) = split_looks(alloc, shared.hall, &mut pass, watched) else {
                return Err(closed(rt, alloc, warnings, serving, Stop::Socket));
            };
            let mut looks = given;
            let mut is_watched = true;
            for it in rooms {
                let Assigned {
                    place,
                    pass: watching,
                    item: room,
                } = it;
                if place >= shared.hall.len() {
                    is_watched = false;
                    break;
                }
                let watcher = scope.spawn(
                    move ||
                        requires { IsSync R.row × IsHallPassOf shared.hall.now watching × (place < length (rooms_of shared.hall.now))
                            × (length shared.turns.now ≡ length (rooms_of shared.hall.now))
                            × (length shared.rooms.now ≡ length (rooms_of shared.hall.now)) }
                    {
                        if !watch(rt, alloc, shared, watching, room, place) {
                            is_lost.store(true, Ordering::SeqCst);
                        }
                    },
                );
                is_watched &= watcher.is_ok();
            }
            let served = match folder {
                _ if !is_watched => Err(closed(rt, alloc, warnings, serving, Stop::Socket)),
                None => none_left(serve_all(rt, alloc, shared, pass, listener, serving)),
                Some(mut folder) => {
                    let door = scope.spawn(
                        move || -> Result<(), Stop>
                            requires { IsSync R.row × IsHallPassOf shared.hall.now pass
                                × (length shared.turns.now ≡ length (rooms_of shared.hall.now)) }
                        {
                            let served = serve_all(rt, alloc, shared, pass, listener, serving);
                            ended.tell(rt);
                            served
                        },
                    );
                    match door {
                        Ok(door) => {
                            let tended = folder.tend(rt, alloc, shared, &mut looks, ended);
                            if !tended.has_ended() {
                                let port = serving.port;
                                hang_up(rt, alloc, port, &mut folder, shared, &mut looks, ended);
                            }
                            let served = door.join(rt);
                            folder.look_after(rt, alloc, shared, &mut looks);
                            match served {
                                Ok(()) => what_is_left(
                                    rt, alloc, shared, &mut looks, folder, tended,
                                ),
                                Err(why) => fitting(Err(why)),
                            }
                        }
                        Err(_) => Err(closed(rt, alloc, warnings, serving, Stop::Socket)),
                    }
                }
            };
            for it in shared.turns {
                it.end(rt);
            }
            served
        },
    );
    drop(hall);
    match (served, serving.keep) {
        (Ok(Some(Leaving { files, left })), Some(path)) => {
            connections.open_again(rt);
            let ended = EndedRun {
                states,
                turns,
                files,
                left,
                lock,
            };
            next_run(reopen_rooms(rt, alloc, path, warnings, ended))
        }
        (served, _) => {
            remove_stop(rt, stop);
            drop(lock);
            none_left(whole(!is_lost.load(Ordering::SeqCst), ended_so(served)))
        }
    }
}

// What a run leaves of its rooms: their files and documents.
#[derive(Drop)]
struct Leaving {
    files: Vec<Option<RoomPath>>,
    left: Vec<Left>,
}

// The rooms of the next run.
fn next_run(opened: Result<Opened, Stop>) -> Result<Option<Opened>, Stop>
    requires pass { IfOk opened (λ it. IsHallPassOf it.hall it.pass) }
    requires turns { IfOk opened (λ it. length it.turns.items ≡ length (rooms_of it.hall)) }
    requires states { IfOk opened (λ it. length it.states.items ≡ length (rooms_of it.hall)) }
    requires watched { IfOk opened (λ it. length it.watched.items ≡ length (rooms_of it.hall)) }
    requires fits { (opened ≡ Err (Stop.Refused Refusal.BadField)) → ⊥ }
    ensures pass { IfOk result (λ next. IfSome next (λ it. IsHallPassOf it.hall it.pass)) }
    ensures turns { IfOk result (λ next. IfSome next (λ it. length it.turns.items ≡ length (rooms_of it.hall))) }
    ensures states { IfOk result (λ next. IfSome next (λ it. length it.states.items ≡ length (rooms_of it.hall))) }
    ensures watched { IfOk result (λ next. IfSome next (λ it. length it.watched.items ≡ length (rooms_of it.hall))) }
    ensures fits { (result ≡ Err (Stop.Refused Refusal.BadField)) → ⊥ }
{
    match opened {
        Ok(opened) => Ok(Some(opened)),
        Err(why) => Err(why),
    }
}

// How it ended, with nothing that is left for another run.
fn none_left<T>(served: Result<(), Stop>) -> Result<Option<T>, Stop>
    requires { (served ≡ Err (Stop.Refused Refusal.BadField)) → ⊥ }
    ensures none { IfOk result (λ left. left ≡ None) }
    ensures fits { (result ≡ Err (Stop.Refused Refusal.BadField)) → ⊥ }
{
    match served {
        Ok(()) => Ok(None),
        Err(why) => Err(why),
    }
}

// How it ended, whatever is left.
fn ended_so(served: Result<Option<Leaving>, Stop>) -> Result<(), Stop>
    ensures fits { (result ≡ Err (Stop.Refused Refusal.BadField)) → ⊥ }
{
    match served {
        Ok(_) => Ok(()),
        Err(why) => fitting(Err(why)),
    }
}

// What a run leaves, whose connections have all ended, where there is to be a next one.
fn what_is_left<R: Wait>(
    rt: &R,
    alloc: Global,
    shared: Shared<'_>,
    looks: &mut HallPass,
    folder: Folder<'_>,
    tended: Tended,
) -> Result<Option<Leaving>, Stop>
    requires pass { IsHallPassOf shared.hall.now looks.old }
    ensures pass { IsHallPassOf shared.entry.hall.now looks.new }
    ensures fits { (result ≡ Err (Stop.Refused Refusal.BadField)) → ⊥ }
{
    let Tended::Renew(left) = tended else {
        return Ok(None);
    };
    match follow_all(rt, alloc, shared.hall, looks, left) {
        Ok(left) => Ok(Some(Leaving {
            files: folder.into_files(),
            left,
        })),
        Err(_) => Err(Stop::Fault(ServeFault::Memory)),
    }
}

// The rooms, each with a pass for who watches it, and a pass for who looks after their files.
fn split_looks(
    alloc: Global,
    hall: &Hall,
    pass: &mut HallPass,
    watched: Vec<Watched>,
) -> Result<(Vec<Assigned<Watched>>, HallPass), Refusal>
    requires pass { IsHallPassOf hall.now pass.old }
    requires counted { length watched.items ≡ length (rooms_of hall.now) }
    ensures pass { IsHallPassOf hall.now pass.new }
    ensures rooms { IfOk result (λ r. All (λ it. IsHallPassOf hall.now it.pass) r.0.items) }
    ensures looks { IfOk result (λ r. IsHallPassOf hall.now r.1) }
{
    let rooms = match assign_rooms(alloc, hall, pass, watched, LOOKS) {
        Ok(rooms) => rooms,
        Err(why) => return Err(why),
    };
    match hall.split(alloc, pass, LOOKS) {
        Ok(looks) => Ok((rooms, looks)),
        Err(why) => Err(why),
    }
}

// The folder in which rooms are kept, if they are.
fn folder_of<'a>(
    alloc: Global,
    serving: &Serving<'a>,
    stop: Option<&'a str>,
    files: Vec<Option<RoomPath>>,
) -> Option<Folder<'a>> {
    match (serving.keep, stop) {
        (Some(path), Some(stop)) => {
            let state = StateFile::new(alloc, path, serving.seconds());
            let does_report = serving.does_report;
            let renew = renew_path(alloc, path, serving.does_renew);
            Some(Folder::new(path, stop, renew, files, state, does_report))
        }
        _ => None,
    }
}

// The path of the file in a folder that has the rooms begin anew, where they do so.
fn renew_path(alloc: Global, folder: &str, does_renew: bool) -> Option<String> {
    if !does_renew {
        return None;
    }
    format!(in alloc; "{folder}/renew").ok()
}

// How it ends where all connections have ended so, and all that was to be kept is, or isn't.
fn whole(is_whole: bool, served: Result<(), Stop>) -> Result<(), Stop>
    requires { (served ≡ Err (Stop.Refused Refusal.BadField)) → ⊥ }
    ensures fits { (result ≡ Err (Stop.Refused Refusal.BadField)) → ⊥ }
{
    served?;
    if is_whole {
        Ok(())
    } else {
        Err(Stop::Fault(ServeFault::Write))
    }
}
