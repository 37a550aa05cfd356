//! Serves rooms over WebSockets on loopback: a thread for each connection, and one for each room that looks at it meanwhile.
ghost use Rattle.std.specs.Prelude.{◌≡◌, ◌↔◌, false, length, Err};
ghost use Rattle.std.specs.Thread.{IsSync};
ghost use Rattle.ws_server.specs.Halls.{rooms_of, IsHallPassOf};
ghost use Rattle.ws_server.specs.Names.{names_fit};

use crate::ends::Connections;
use crate::listener::{closed, fitting, listen};
use crate::rooms::{Opened, open_rooms};
use crate::runs::serve_runs;
use crate::serving::Serving;
use crate::state::RoomState;
use crate::tending::remove_stop;
use crate::warnings::Warnings;
use commands::Stop;
use line_engine::ServeFault;
use log::{Log, warn};
use opid::Refusal;
use std::alloc::Global;
use std::fs::{File, Files};
use std::io::Print;
use std::net::{Net, TcpListener, TcpStream};
use std::sync::Wait;
use std::thread::Threads;
use std::time::Clock;
use std::{array, io, thread};
use ws_server::names_fit;

// Tells which site the rooms are opened at, where they are kept: in one line where it is the same for all.
fn tell_sites<R: Print>(rt: &R, serving: &Serving<'_>, rooms: &[RoomState]) -> Result<(), Stop>
    ensures fits { (result ≡ Err (Stop.Refused Refusal.BadField)) → ⊥ }
{
    if !serving.is_kept() {
        return Ok(());
    }
    let told = match rooms {
        [first, rest @ ..] if rest.iter().all(|it| it.site == first.site) => {
            println!(rt; "site {}", first.site.number())
        }
        _ => tell_each_site(rt, rooms),
    };
    match told {
        Ok(()) => Ok(()),
        Err(_) => Err(Stop::Fault(ServeFault::Write)),
    }
}

// The same, in a line for each room.
fn tell_each_site<R: Print>(rt: &R, rooms: &[RoomState]) -> io::Result<()> {
    for it in rooms {
        println!(rt; "site {} {}", it.name, it.site.number())?;
    }
    Ok(())
}

// The same, while a thread of its own tells what is warned of.
fn serve_warned<
    R: Net<Listener = TcpListener, Stream = TcpStream>
        + Files<File = File>
        + Clock
        + Threads
        + Wait
        + Log
        + Sync,
>(
    rt: &R,
    alloc: Global,
    opened: Opened,
    listener: TcpListener,
    serving: &Serving<'_>,
    stop: Option<&str>,
    connections: &Connections,
) -> Result<(), Stop>
    requires pass { IsHallPassOf opened.hall opened.pass }
    requires turns { length opened.turns.items ≡ length (rooms_of opened.hall) }
    requires states { length opened.states.items ≡ length (rooms_of opened.hall) }
    requires watched { length opened.watched.items ≡ length (rooms_of opened.hall) }
    ensures fits { (result ≡ Err (Stop.Refused Refusal.BadField)) → ⊥ }
{
    let all = Warnings::new(alloc);
    let warnings = &all;
    let served = thread::scope(
        thread::scope_env(),
        rt,
        move |scope| -> Result<(), Stop>
            requires { IsSync R.row × IsHallPassOf opened.hall opened.pass
                × (length opened.turns.items ≡ length (rooms_of opened.hall))
                × (length opened.states.items ≡ length (rooms_of opened.hall))
                × (length opened.watched.items ≡ length (rooms_of opened.hall)) }
            ensures { (result ≡ Err (Stop.Refused Refusal.BadField)) → ⊥ }
        {
            let teller = scope.spawn(
                move ||
                    requires { IsSync R.row }
                { warnings.tell(rt) },
            );
            if teller.is_err() {
                return Err(closed(rt, alloc, warnings, serving, Stop::Socket));
            }
            let served = serve_runs(
                rt,
                alloc,
                opened,
                listener,
                serving,
                stop,
                connections,
                warnings,
            );
            warnings.end(rt);
            served
        },
    );
    // (where no thread tells them)
    warnings.end(rt);
    warnings.tell(rt);
    fitting(served)
}

/// Serves a room for each name on the port of 127.0.0.1, prints `listening` and the port once it listens, accepts so many connections,
/// waits for all and ends; or, where rooms are kept and no number is named, so many at one time, and doesn't end by itself. With a folder,
/// each room opens over what its file there stands for, `site` and its number are printed next, for each room by its name where they
/// differ, what a room's log gains goes to its file, which answers wait for unless turns are taken each `every` seconds, and the file
/// `stop` in the folder ends the server. Takes a thread for each connection that is there, one for each room and two more.
///
/// A connection's fault ends it alone, and is warned of at the end, in order of acceptance, where so many are accepted in all. Where rooms
/// are kept a limit that comes near, a last connection or one that can't be had, a page that is turned away, a room that is left out, and a
/// file that can't be written or that somebody else has changed are warned of when they are met. Names that don't fit are refused with
/// `BadField`; where no room is left, with `SiteUsed`, `BadSnapshot` or `Files` as `open_rooms` tells; a listener or a thread that can't be
/// had, and where no rooms are kept a connection, ends it with `Socket`, once the connections that were accepted have ended; and the last
/// write to a file that fails with `Write`.
pub(crate) fn host<
    R: Net<Listener = TcpListener, Stream = TcpStream>
        + Files<File = File>
        + Clock
        + Threads
        + Wait
        + Print
        + Log
        + Sync,
>(rt: &R, alloc: Global, serving: &Serving<'_>) -> Result<(), Stop>
    ensures unfit { (names_fit serving.now.names.now ≡ false) ↔ (result ≡ Err (Stop.Refused Refusal.BadField)) }
{
    if !names_fit(serving.names) {
        tell_unfit(rt, serving);
        return Err(Stop::Refused(Refusal::BadField));
    }
    if serving.does_renew && (serving.site.is_some() || serving.conns.is_some()) {
        warn!(rt; "with --renew there is one run after another, each with a site that its logs haven't: --site and --conns tell of one");
        return Err(Stop::Refused(Refusal::SiteUsed));
    }
    let path = stop_path(alloc, serving.keep)?;
    let stop = path.as_ref().map(|path| path.as_str());
    let opened = open_rooms(rt, alloc, serving.keep, serving.site, serving.names)?;
    remove_stop(rt, stop);
    let listener = listen(rt, serving)?;
    tell_sites(rt, serving, opened.states.as_slice())?;
    let connections = Connections::new(alloc, serving.limit());
    serve_warned(rt, alloc, opened, listener, serving, stop, &connections)?;
    tell_ends(rt, connections);
    Ok(())
}

// Warns of the first name that doesn't fit by itself, where rooms are to be kept, and tells the rule.
fn tell_unfit<R: Log>(rt: &R, serving: &Serving<'_>) {
    if !serving.is_kept() {
        return;
    }
    let rule = "1 to 64 names, all different, each of 1 to 32 characters a-z, 0-9 and -";
    for name in serving.names {
        if !names_fit(array::from_ref(name)) {
            warn!(rt; "room {name}: rooms have {rule}");
            return;
        }
    }
    warn!(rt; "rooms have {rule}");
}

// Warns of each connection that ended with a fault.
fn tell_ends<R: Log>(rt: &R, connections: Connections) {
    let mut n = 0u32;
    for it in connections.into_all() {
        n = n.saturating_add(1);
        if let Some(fault) = it.end {
            warn!(rt; "connection {n} {fault}");
        }
    }
}

// The path of the file that ends the server, where rooms are kept.
fn stop_path(alloc: Global, folder: Option<&str>) -> Result<Option<String>, Stop>
    ensures fits { (result ≡ Err (Stop.Refused Refusal.BadField)) → ⊥ }
{
    let Some(folder) = folder else {
        return Ok(None);
    };
    match format!(in alloc; "{folder}/stop") {
        Ok(path) => Ok(Some(path)),
        Err(_) => Err(Stop::Fault(ServeFault::Memory)),
    }
}
