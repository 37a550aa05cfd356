//! A room's file that begins anew with the text of its document.
ghost use Rattle.std.specs.Prelude.{◌≡◌, IfOk};

use crate::beside::{NewFile, Node, OtherName, begin_anew, put_in_place, stands_there};
use crate::renewing::TARGET;
use crate::state::RoomState;
use crate::warnings::Warnings;
use journal::free_site;
use keeper::{Disk, HostFile, KeepFault, KeptFile};
use opid::Site;
use renewal::renew_into;
use std::alloc::Global;
use std::fs::{File, Files};
use std::io::Error;
use std::sync::Wait;
use std::{fs, io};
use thiserror::Error;
use versions::Doc;

/// What a room opens over: its file, that one's node, and its document.
#[derive(Drop)]
pub(crate) struct Over {
    pub(crate) file: KeptFile<HostFile>,
    pub(crate) node: Node,
    pub(crate) doc: Doc,
}

/// The room's document begun anew in a new file, and that it is; or as it was, where that fails, which its state tells. Either is warned
/// of.
pub(crate) fn renew_or_stay<R: Files<File = File> + Wait>(
    rt: &R,
    alloc: Global,
    folder: &str,
    warnings: &Warnings,
    place: usize,
    state: &RoomState,
    path: &str,
    over: Over,
) -> (Over, bool)
    requires unreserved { over.doc.reserved ≡ 0 }
    ensures unreserved { result.0.doc.reserved ≡ 0 }
{
    let name = state.name.as_str();
    match renew_file(
        rt, alloc, folder, name, path, place, over.node, &over.file, &over.doc,
    ) {
        Ok(it) => {
            let RenewedFile {
                file,
                node,
                doc,
                old,
            } = it;
            let count = doc.version();
            let told = format!(in alloc;
                "{path}: it begins anew with its {count} characters; the old document is in {old}"
            );
            warnings.add(rt, TARGET, told);
            (Over { file, node, doc }, true)
        }
        Err(why) => {
            let told = format!(in alloc; "{path}: it can't begin anew, and goes on: {why}");
            warnings.add(rt, TARGET, told);
            state.stay(rt, format!(in alloc; "{why}").ok());
            (over, false)
        }
    }
}

// A room's file that was renewed: its node and document, and the old one's name.
#[derive(Drop)]
struct RenewedFile {
    file: KeptFile<HostFile>,
    node: Node,
    doc: Doc,
    old: String,
}

// Why a room's file isn't renewed.
#[derive(Debug, Drop, Error)]
enum Unrenewed {
    #[error("{0}")]
    File(io::Error),
    #[error("{0}")]
    Keep(KeepFault),
}

impl From<io::Error> for Unrenewed {
    fn from(why: io::Error) -> Unrenewed {
        Unrenewed::File(why)
    }
}

// Writes the document of the room at a place anew to a file of its own, and puts that in place of the room's at a path, which keeps all of
// it, and has a number in its name from then on. Where that fails the room goes on with what it has. Takes the steps of `renew_into`.
fn renew_file<R: Files<File = File>>(
    rt: &R,
    alloc: Global,
    folder: &str,
    name: &str,
    path: &str,
    place: usize,
    own: Node,
    kept: &KeptFile<HostFile>,
    doc: &Doc,
) -> Result<RenewedFile, Unrenewed>
    ensures unreserved { IfOk result (λ it. it.doc.reserved ≡ 0) }
{
    kept.disk().check()?;
    if kept.version() != doc.version() {
        return Err(Unrenewed::File(Error::other("not all of it is kept")));
    }
    let new = begin_anew(rt, alloc, path, own, place)?;
    let beside = match new.name.clone() {
        Ok(beside) => beside,
        Err(why) => return Err(Unrenewed::File(Error::from(why))),
    };
    let renewed = fill_anew(rt, alloc, folder, name, path, own, new, doc);
    if renewed.is_err() {
        let _ = fs::remove_file(rt, beside.as_str());
    }
    renewed
}

// Writes the document to the new file, and puts it in place.
fn fill_anew<R: Files<File = File>>(
    rt: &R,
    alloc: Global,
    folder: &str,
    name: &str,
    path: &str,
    own: Node,
    new: NewFile,
    doc: &Doc,
) -> Result<RenewedFile, Unrenewed>
    ensures unreserved { IfOk result (λ it. it.doc.reserved ≡ 0) }
{
    let NewFile {
        name: beside,
        node,
        mut file,
    } = new;
    let front = match format!(in alloc; "{folder}/{name}") {
        Ok(front) => front,
        Err(why) => return Err(Unrenewed::File(Error::from(why))),
    };
    // (where each of the 32 has operations the numbers of one come again)
    let Some(site) = free_site(doc).or(Site::new(0).ok()) else {
        unreachable!()
    };
    let doc = match renew_into(alloc, doc, site, &mut file) {
        Ok(doc) => doc,
        Err(why) => return Err(Unrenewed::Keep(why)),
    };
    if !stands_there(rt, path, own) {
        return Err(Unrenewed::File(Error::other("another file stands there")));
    }
    let other = OtherName {
        front: front.as_str(),
        word: "ops",
    };
    match put_in_place(rt, alloc, folder, path, own, beside.as_str(), other)? {
        Some(old) => Ok(RenewedFile {
            file,
            node,
            doc,
            old,
        }),
        None => Err(Unrenewed::File(Error::other("it is gone"))),
    }
}
