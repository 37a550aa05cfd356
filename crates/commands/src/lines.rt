//! Runs `lines`: a room over a log, its requests, and its snapshot.
ghost use Rattle.std.specs.Prelude.{◌≡◌, ◌+◌, ◌^◌, ◌<◌, ◌++◌, ℕ, List, [], true, Ok, MatchResult, IfOk, string_bytes};
ghost use Rattle.std.specs.Io.KnownBytes.{Appends, Consumes, IsAtEnd};
ghost use Rattle.room_model.specs.Machine.{room_over};
ghost use Rattle.room_model.specs.History.{account_over};
ghost use Rattle.room.specs.OwnedDesk.{room_step, room_fault};
ghost use Rattle.snapshot.specs.Snapshot.{log_text};
ghost use Rattle.line_engine.specs.AnsweredRequests.{AnswersRequest};
ghost use Rattle.line_engine.specs.Lines.{ended};
ghost use Rattle.line_engine.specs.ServedLines.{Serves};
ghost use Rattle.line_engine.specs.Counting.{Rises};
ghost use Rattle.commands.specs.Played.{PlaysLines, ServesRoom, OpensOver, OpensNot, Closes, served_end};

use crate::sending::send;
use crate::stop::Stop;
use line_engine::{Counted, Requests, ServeFault, Source, Window, first_line, serve};
use opid::Site;
use replica::Replica;
use room::{Room, RoomDesk};
use snapshot::{load, save};
use std::alloc::{AllocError, Global};
use std::io::Write;

/// Serves a room of the site: over an empty log, or where it resumes over that of the input's first line, which is a
/// snapshot; and writes its snapshot last, where that is asked for, unless the engine ended with a fault.
///
/// Refused with `BadSnapshot` where the first line is no snapshot, and with `SiteUsed` where its log has an operation of the
/// site; else a fault of the engine, or of the write of the snapshot or of memory. Takes the time of the engine and of the
/// calls that the lines ask for, and memory for the engine's buffer and the room; a snapshot that is read is in memory as a
/// whole, with its JSON value where `load_doc` needs it, and so is the text of the one that is written.
pub fn play_lines<R: Source, W: Write>(
    alloc: Global,
    site: Site,
    resume: bool,
    snapshot: bool,
    input: &mut Counted<R>,
    output: &mut Counted<W>,
) -> Result<(), Stop>
    requires few_reads_failed { input.old.failures < 2 ^ 63 }
    requires few_writes_failed { output.old.failures < 2 ^ 63 }
    ensures plays { (got : List ℕ) × (written : List ℕ)
        × Consumes (R.remaining input.old.inner) (R.remaining input.new.inner) got
        × Appends (W.contents output.old.inner) (W.contents output.new.inner) written
        × PlaysLines site resume snapshot got (R.remaining input.new.inner) written result }
    ensures counted { Rises input.old.failures input.new.failures output.old.failures output.new.failures (served_end result) }
{
    let Ok(mut window) = Window::new(alloc) else {
        return Err(Stop::Fault(ServeFault::Memory));
    };
    match open(alloc, site, resume, &mut window, input) {
        Ok(opening) => serve_room(alloc, opening, snapshot, &mut window, input, output),
        Err(why) => Err(why),
    }
}

// A room before its first request.
#[derive(Drop)]
struct Opening {
    room: Room,
    // The input ended behind the line that the room was opened over: it isn't read again (docs/decisions, P4).
    is_over: bool,
}

// Opens the room.
fn open<R: Source>(
    alloc: Global,
    site: Site,
    resume: bool,
    window: &mut Window,
    input: &mut Counted<R>,
) -> Result<Opening, Stop>
    requires nothing_held { window.old ≡ [] }
    requires few_reads_failed { input.old.failures < 2 ^ 63 }
    ensures opens { (got : List ℕ) × Consumes (R.remaining input.old.inner) (R.remaining input.new.inner) got
        × MatchResult result
        (λ o. (o.room ≡ account_over (room_over site o.room.state.log))
        × OpensOver resume site (R.remaining input.new.inner) got o.is_over o.room.state.log window.new)
        (λ why. OpensNot resume site (R.remaining input.new.inner) got why) }
    ensures counted { Rises input.old.failures input.new.failures 0 0 (served_end result) }
{
    if !resume {
        let room = Room::new(alloc, site);
        return Ok(Opening {
            room,
            is_over: false,
        });
    }
    let line = match first_line(alloc, window, input) {
        Ok(line) => line,
        Err(why) => return Err(Stop::Fault(why)),
    };
    match load(alloc, &line.bytes, site) {
        Ok(replica) => Ok(Opening {
            room: Room::over(alloc, replica),
            is_over: line.is_last,
        }),
        Err(why) => Err(Stop::of(why)),
    }
}

// Serves the room's requests, and closes it.
fn serve_room<R: Source, W: Write>(
    alloc: Global,
    opening: Opening,
    snapshot: bool,
    window: &mut Window,
    input: &mut Counted<R>,
    output: &mut Counted<W>,
) -> Result<(), Stop>
    requires unrecorded { opening.room.history ≡ [] }
    requires over { opening.is_over ≡ true → (window.old ≡ []) × IsAtEnd (R.remaining input.old.inner) }
    requires few_reads_failed { input.old.failures < 2 ^ 63 }
    requires few_writes_failed { output.old.failures < 2 ^ 63 }
    ensures serves { (got : List ℕ) × (written : List ℕ)
        × Consumes (R.remaining input.old.inner) (R.remaining input.new.inner) got
        × Appends (W.contents output.old.inner) (W.contents output.new.inner) written
        × (opening.is_over ≡ true → got ≡ [])
        × ServesRoom opening.room snapshot (window.old ++ got) (R.remaining input.new.inner) written result }
    ensures unread { opening.is_over ≡ true → R.remaining input.new.inner ≡ R.remaining input.old.inner }
    ensures counted { Rises input.old.failures input.new.failures output.old.failures output.new.failures (served_end result) }
{
    let is_over = opening.is_over;
    let mut desk = RoomDesk::new(opening.room);
    match serve_rest(alloc, is_over, &mut desk, window, input, output) {
        Ok(()) => close(alloc, snapshot, desk.room().replica(), output),
        Err(why) => Err(Stop::Fault(why)),
    }
}

// Serves requests, unless the input is over.
fn serve_rest<R: Source, W: Write>(
    alloc: Global,
    is_over: bool,
    desk: &mut RoomDesk,
    window: &mut Window,
    input: &mut Counted<R>,
    output: &mut Counted<W>,
) -> Result<(), ServeFault>
    requires over { is_over ≡ true → (window.old ≡ []) × IsAtEnd (R.remaining input.old.inner) }
    requires few_reads_failed { input.old.failures < 2 ^ 63 }
    requires few_writes_failed { output.old.failures < 2 ^ 63 }
    ensures serves { (got : List ℕ) × (written : List ℕ)
        × Consumes (R.remaining input.old.inner) (R.remaining input.new.inner) got
        × Appends (W.contents output.old.inner) (W.contents output.new.inner) written
        × (is_over ≡ true → got ≡ [])
        × Serves (AnswersRequest room_step room_fault) desk.old (window.old ++ got) (R.remaining input.new.inner) written result desk.new }
    ensures unread { is_over ≡ true → R.remaining input.new.inner ≡ R.remaining input.old.inner }
    ensures counted { Rises input.old.failures input.new.failures output.old.failures output.new.failures result }
{
    if is_over {
        return Ok(());
    }
    serve::<Requests<RoomDesk>, R, W>(alloc, window, desk, input, output)
}

// Writes the snapshot of a replica as one line, where that is asked for.
fn close<W: Write>(
    alloc: Global,
    snapshot: bool,
    replica: &Replica,
    output: &mut Counted<W>,
) -> Result<(), Stop>
    requires few_failed { output.old.failures < 2 ^ 63 }
    ensures closes { (last : List ℕ) × Appends (W.contents output.old.inner) (W.contents output.new.inner) last
        × Closes {T = Unit {0}} snapshot replica.now.log last (Ok tt) result }
    ensures counted { Rises 0 0 output.old.failures output.new.failures (served_end result) }
{
    if !snapshot {
        return Ok(());
    }
    match snapshot_line(alloc, replica) {
        Ok(line) => send(output, line.as_bytes()),
        Err(_) => Err(Stop::Fault(ServeFault::Memory)),
    }
}

// The snapshot of a replica with its LF.
fn snapshot_line(alloc: Global, replica: &Replica) -> Result<String, AllocError>
    ensures { IfOk result (λ line. string_bytes line ≡ ended (log_text replica.now.log)) }
{
    let Ok(mut line) = save(alloc, replica) else {
        return Err(AllocError);
    };
    line.push('\n')?;
    Ok(line)
}
