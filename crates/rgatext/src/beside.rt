//! Files beside a room's file: new ones, and the names that an old one gets.
ghost use Rattle.std.specs.Prelude.{◌≡◌, IfOk};

use keeper::{Found, FoundFile, HostFile, KeptFile, find};
use std::alloc::Global;
use std::fs::{File, Files, Metadata, OpenOptions};
use std::io::Error;
use std::os::unix::fs::MetadataExt;
use std::{fs, io};

/// So many files beside a room's file have a name.
pub(crate) const NAMES: u32 = 999;

/// The numbers of a file's device and of its node, which no other file has as long as it is there.
#[derive(Clone, Copy, PartialEq, Eq)]
pub(crate) struct Node {
    device: u64,
    number: u64,
}

impl Node {
    /// Those of the file of which this is known.
    pub(crate) fn of(known: &Metadata) -> Node {
        Node {
            device: known.dev(),
            number: known.ino(),
        }
    }
}

/// Whether the file with this node stands at a path.
pub(crate) fn stands_there<R: Files<File = File>>(rt: &R, path: &str, own: Node) -> bool {
    match fs::metadata(rt, path) {
        Ok(known) => Node::of(&known) == own,
        Err(_) => false,
    }
}

/// A new file beside the one at a path, and its name.
pub(crate) fn new_beside<R: Files<File = File>>(
    rt: &R,
    alloc: Global,
    path: &str,
    word: &str,
) -> io::Result<(String, File)> {
    let name = free_name(rt, alloc, path, word)?;
    let file = new_file(rt, name.as_str())?;
    Ok((name, file))
}

// The name behind the last that is taken of those of a path with a number and this word, so that none comes again that was put elsewhere.
fn free_name<R: Files<File = File>>(
    rt: &R,
    alloc: Global,
    path: &str,
    word: &str,
) -> io::Result<String> {
    let mut next = None;
    for steps in 0..NAMES {
        let number = NAMES.saturating_sub(steps);
        let name = format!(in alloc; "{path}.{number}.{word}")?;
        if fs::exists(rt, name.as_str())? {
            break;
        }
        next = Some(name);
    }
    next.ok_or(Error::other("its 999 names are used up"))
}

// A file that wasn't there.
fn new_file<R: Files<File = File>>(rt: &R, path: &str) -> io::Result<File> {
    OpenOptions::new()
        .read(true)
        .append(true)
        .create_new(true)
        .open(rt, path)
}

/// A file beside the one at a path, in which the room at a place is to be kept: its name, its node, and the file, with nothing in it yet.
#[derive(Drop)]
pub(crate) struct NewFile {
    pub(crate) name: String,
    pub(crate) node: Node,
    pub(crate) file: KeptFile<HostFile>,
}

/// A new file for the room at a place, beside what stands at its path, where that is the room's own file or no server's. Where it can't be
/// had it isn't there.
pub(crate) fn begin_anew<R: Files<File = File>>(
    rt: &R,
    alloc: Global,
    path: &str,
    own: Node,
    place: usize,
) -> io::Result<NewFile>
    ensures room { IfOk result (λ it. it.file.room ≡ place) }
{
    let _ = is_there(rt, path, own)?;
    let (name, file) = new_beside(rt, alloc, path, "new")?;
    match kept_anew(alloc, file, place) {
        Ok((file, node)) => Ok(NewFile { name, node, file }),
        Err(why) => {
            let _ = fs::remove_file(rt, name.as_str());
            Err(why)
        }
    }
}

// A file that was made, as one for the room at a place, and its node.
fn kept_anew(alloc: Global, file: File, place: usize) -> io::Result<(KeptFile<HostFile>, Node)>
    ensures room { IfOk result (λ it. it.0.room ≡ place) }
{
    if file.try_lock().is_err() {
        return Err(Error::other("somebody else has it"));
    }
    let node = Node::of(&file.metadata()?);
    match find(alloc, HostFile::new(file), place) {
        Ok(Found { file, doc: _ }) => match file {
            FoundFile::Whole(file) => Ok((file, node)),
            FoundFile::Torn(_) => Err(Error::other("somebody else writes to it")),
        },
        Err(_) => Err(Error::other("it can't be read")),
    }
}

// Whether something stands at a path, unless another server has it.
fn is_there<R: Files<File = File>>(rt: &R, path: &str, own: Node) -> io::Result<bool> {
    if !fs::exists(rt, path)? {
        return Ok(false);
    }
    let file = fs::open(rt, path)?;
    let is_own = Node::of(&file.metadata()?) == own;
    if !is_own && file.try_lock().is_err() {
        return Err(Error::other("another server keeps the room there"));
    }
    Ok(true)
}

/// What the file is called too that stood at a path: this, a number, and a word, with points between.
#[derive(Clone, Copy)]
pub(crate) struct OtherName<'a> {
    pub(crate) front: &'a str,
    pub(crate) word: &'a str,
}

/// Puts a new file in place of what stands at a path in the folder, in one step, once that has another name too: which, if something stood
/// there. What another server has stays where it is.
pub(crate) fn put_in_place<R: Files<File = File>>(
    rt: &R,
    alloc: Global,
    folder: &str,
    path: &str,
    own: Node,
    new: &str,
    other: OtherName<'_>,
) -> io::Result<Option<String>> {
    let aside = if is_there(rt, path, own)? {
        let name = free_name(rt, alloc, other.front, other.word)?;
        fs::hard_link(rt, path, name.as_str())?;
        Some(name)
    } else {
        None
    };
    if let Err(why) = exchange(rt, folder, path, new) {
        if let Some(name) = &aside {
            let _ = fs::remove_file(rt, name.as_str());
        }
        return Err(why);
    }
    sync_entries(rt, folder)?;
    Ok(aside)
}

// Renames a new file to what stands at a path, once its other name is found after a power cut.
fn exchange<R: Files<File = File>>(rt: &R, folder: &str, path: &str, new: &str) -> io::Result<()> {
    sync_entries(rt, folder)?;
    fs::rename(rt, new, path)
}

/// Sees to it that files that were made in the folder, or have got another name, are found so after a power cut.
pub(crate) fn sync_entries<R: Files<File = File>>(rt: &R, folder: &str) -> io::Result<()> {
    fs::open(rt, folder)?.sync_all()
}
