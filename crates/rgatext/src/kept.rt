//! The folder in which rooms are kept, and their files in it.
ghost use Rattle.std.specs.Prelude.{◌≡◌, Err, IfOk};

use crate::beside::{NAMES, Node, new_beside, sync_entries};
use commands::Stop;
use keeper::{Found, FoundFile, HostFile, KeptFile, OpenFault, TornFile, find};
use line_engine::ServeFault;
use log::{Log, warn};
use opid::Refusal;
use std::alloc::Global;
use std::fs::{File, Files, OpenOptions, TryLockError};
use std::{fs, io};
use versions::Doc;

// What a file of operations has at most, in bytes: 131,072 lines of one each, of no more than 1,024. A longer one isn't read, since there
// may be no memory for it.
const LONGEST_LOG: u64 = 1 << 27;

/// Takes the folder for this server alone, for as long as the file that is answered is open: a second server that keeps its rooms
/// there is refused, until this one has ended, however it ends.
pub(crate) fn lock_folder<R: Files<File = File> + Log>(
    rt: &R,
    alloc: Global,
    folder: &str,
) -> Result<File, Stop>
    ensures fits { (result ≡ Err (Stop.Refused Refusal.BadField)) → ⊥ }
{
    if folder.is_empty() {
        warn!(rt; "the folder in which rooms are to be kept has no name");
        return Err(Stop::Files);
    }
    let Ok(path) = format!(in alloc; "{folder}/rgatext.lock") else {
        return Err(Stop::Fault(ServeFault::Memory));
    };
    let file = match OpenOptions::new()
        .write(true)
        .create(true)
        .open(rt, path.as_str())
    {
        Ok(file) => file,
        Err(why) => {
            warn!(rt; "{path}: {why}");
            return Err(Stop::Files);
        }
    };
    match file.try_lock() {
        Ok(()) => Ok(file),
        Err(TryLockError::WouldBlock) => {
            warn!(rt; "{folder}: another server keeps its rooms there");
            Err(Stop::Files)
        }
        Err(TryLockError::Error(why)) => {
            warn!(rt; "{path}: {why}");
            Err(Stop::Files)
        }
    }
}

/// A room's file, its path and node, and the document of the log that stands in it.
#[derive(Drop)]
pub(crate) struct RoomFile {
    pub(crate) path: String,
    pub(crate) file: KeptFile<HostFile>,
    pub(crate) node: Node,
    pub(crate) doc: Doc,
}

/// The file of the room with this name, whose place is told, with an empty document where there was none. A last line that was cut short is
/// saved beside it, and warned of. Nothing else is written yet.
///
/// `BadSnapshot` where a whole line is no part of a log that goes on with those before it, or what stands behind the last one is no line
/// that was cut short; `Files` where the file can't be had or read, or that line can't be saved; either is warned of, with its name.
/// `Memory`.
pub(crate) fn open_file<R: Files<File = File> + Log>(
    rt: &R,
    alloc: Global,
    folder: &str,
    name: &str,
    place: usize,
) -> Result<RoomFile, Stop>
    ensures fits { (result ≡ Err (Stop.Refused Refusal.BadField)) → ⊥ }
    ensures unreserved { IfOk result (λ kept. kept.doc.reserved ≡ 0) }
{
    let Ok(path) = format!(in alloc; "{folder}/{name}.ops") else {
        return Err(Stop::Fault(ServeFault::Memory));
    };
    match old_alone(rt, alloc, folder, name, path.as_str()) {
        Ok(None) => {}
        Ok(Some(old)) => {
            warn!(rt; "{path}: it isn't there, and {old} is, which it was before: copy that one to its name, or put it elsewhere");
            return Err(Stop::Files);
        }
        Err(why) => {
            warn!(rt; "{path}: {why}");
            return Err(Stop::Files);
        }
    }
    // (it is made where there is none)
    let file = match OpenOptions::new()
        .read(true)
        .append(true)
        .create(true)
        .open(rt, path.as_str())
    {
        Ok(file) => file,
        Err(why) => {
            warn!(rt; "{path}: {why}");
            return Err(Stop::Files);
        }
    };
    // (whoever has lost the folder's lock, as where that file was deleted, doesn't write here all the same)
    if let Err(why) = file.try_lock() {
        match why {
            TryLockError::WouldBlock => warn!(rt; "{path}: another server keeps the room there"),
            TryLockError::Error(why) => warn!(rt; "{path}: {why}"),
        }
        return Err(Stop::Files);
    }
    let node = match file.metadata() {
        Ok(known) if known.len() > LONGEST_LOG => {
            warn!(rt; "{path}: it is longer than any log");
            return Err(Stop::Files);
        }
        Ok(known) => Node::of(&known),
        Err(why) => {
            warn!(rt; "{path}: {why}");
            return Err(Stop::Files);
        }
    };
    let (found, doc) = match find(alloc, HostFile::new(file), place) {
        Ok(Found { file, doc }) => (file, doc),
        Err(unopened) => return Err(stop_of(rt, path.as_str(), &unopened.why)),
    };
    let file = match found {
        FoundFile::Whole(file) => file,
        FoundFile::Torn(torn) => match save_tail(rt, alloc, path.as_str(), torn) {
            Ok(file) => file,
            Err(why) => {
                warn!(rt; "{path}: its last line was cut short, and can't be saved: {why}");
                return Err(Stop::Files);
            }
        },
    };
    Ok(RoomFile {
        path,
        file,
        node,
        doc,
    })
}

// The first of a room's old documents, where it has one, and none that goes on.
fn old_alone<R: Files<File = File>>(
    rt: &R,
    alloc: Global,
    folder: &str,
    name: &str,
    path: &str,
) -> io::Result<Option<String>> {
    if fs::exists(rt, path)? {
        return Ok(None);
    }
    for number in 1..=NAMES {
        let old = format!(in alloc; "{folder}/{name}.{number}.ops")?;
        if fs::exists(rt, old.as_str())? {
            return Ok(Some(old));
        }
    }
    Ok(None)
}

// Saves a line that was cut short in a file of its own, and warns of it.
fn save_tail<R: Files<File = File> + Log>(
    rt: &R,
    alloc: Global,
    path: &str,
    torn: TornFile<HostFile>,
) -> io::Result<KeptFile<HostFile>> {
    let (beside, file) = new_beside(rt, alloc, path, "cut")?;
    let len = torn.tail().len();
    let kept = torn.save(&mut HostFile::new(file))?;
    warn!(rt; "{path}: its last line was cut short: the {len} bytes are in {beside}");
    Ok(kept)
}

// Warns why a file isn't opened, but for want of memory, and tells how `serve` ends by that.
fn stop_of<R: Log>(rt: &R, path: &str, why: &OpenFault) -> Stop
    ensures fits { (result ≡ Stop.Refused Refusal.BadField) → ⊥ }
{
    match why {
        OpenFault::Memory => Stop::Fault(ServeFault::Memory),
        OpenFault::File(why) => {
            warn!(rt; "{path}: {why}");
            Stop::Files
        }
        OpenFault::Line(line) => {
            warn!(rt; "{path}: line {line} doesn't go on with the log, or its digest differs (docs/WATCHING.md tells what to do)");
            Stop::Refused(Refusal::BadSnapshot)
        }
        OpenFault::Tail(_) => {
            warn!(rt; "{path}: {why} (docs/WATCHING.md tells what to do)");
            Stop::Refused(Refusal::BadSnapshot)
        }
    }
}

/// Sees to it that files that were made in the folder are found there after a power cut.
pub(crate) fn sync_folder<R: Files<File = File> + Log>(rt: &R, folder: &str) -> Result<(), Stop>
    ensures fits { (result ≡ Err (Stop.Refused Refusal.BadField)) → ⊥ }
{
    match sync_entries(rt, folder) {
        Ok(()) => Ok(()),
        Err(why) => {
            warn!(rt; "{folder}: {why}");
            Err(Stop::Files)
        }
    }
}
