//! Opening a file in which a log is kept.
ghost use Rattle.std.specs.Prelude.{◌≡◌, ◌⊎◌, ◌<◌, ◌≤◌, ◌+◌, Bool, true, Ok, Err, List, [], ℕ, length, drop, IfOk, IfErr, MatchResult};
ghost use Rattle.std.specs.declared.io.Error.{Error};
ghost use Rattle.journal.specs.Journal.{EndsLines, StandsFor, StandsForNone, IsFirstFault, whole_lines};
ghost use Rattle.keeper.specs.Disk.{LeavesOnly, IsHeld};
ghost use Rattle.keeper.specs.Kept.{Keeps, KeepsAt};
ghost use Rattle.keeper.specs.Tail.{IsCutShort, IsNoLine, HasTail, kept_of, tail_of};
ghost use Rattle.keeper.specs.declared.fault.OpenFault.TheVariants.{Memory, Line, Tail, File};

use crate::disk::Disk;
use crate::fault::OpenFault;
use crate::kept::KeptFile;
use crate::torn::TornFile;
use journal::{JournalFault, Mark, read_journal};
use std::alloc::Global;
use versions::Doc;

// A line takes fewer bytes.
const LONGEST: usize = 65_536;

/// A file that was opened.
#[derive(Drop)]
pub struct Found<D: Disk> {
    /// Its log is kept from here on.
    pub file: FoundFile<D>,
    /// The document of the log that stands in it.
    pub doc: Doc,
}

/// A file in which a log stands.
#[derive(Drop)]
pub enum FoundFile<D: Disk> {
    /// Its last line is whole, or it has none.
    Whole(KeptFile<D>),
    /// Its last line was cut short.
    Torn(TornFile<D>),
}

impl<D: Disk> FoundFile<D> {
    // A kept file, and what stands behind its mark.
    fn of(kept: KeptFile<D>, tail: Vec<u8>) -> Self
        ensures kept { kept_of result ≡ kept }
        ensures tail { tail_of result ≡ tail.items }
        ensures some { HasTail result }
    {
        if tail.is_empty() {
            FoundFile::Whole(kept)
        } else {
            FoundFile::Torn(TornFile::new(kept, tail))
        }
    }
}

/// A file that wasn't.
#[derive(Drop)]
pub struct Unopened<D: Disk> {
    /// Why.
    pub why: OpenFault,
    /// The file.
    pub disk: D,
}

/// Opens a file for the room in this place of its hall. It is synced first, since what a server that was killed had written might not be
/// on the disk yet; it isn't changed.
///
/// Refused as `read_journal` is; with `Tail` where what stands behind its last whole line can't be a line that was cut short, since no
/// whole one stands before it, or it has more than 65,536 bytes; and with `File` where the disk failed. Takes the steps of `read_journal`,
/// and memory for all the bytes.
pub fn find<D: Disk>(alloc: Global, disk: D, room: usize) -> Result<Found<D>, Unopened<D>>
    // What was read is kept, where the disk holds what stood there before the last sync that failed.
    ensures found { IfOk result (λ f. D.honest disk → IsHeld (D.fresh disk) (D.seen disk) (D.may_leave disk)
        → Keeps D.honest D.seen D.may_leave D.fresh (kept_of f.file) f.doc.log) }

    ensures stands { IfOk result (λ f. D.honest disk → StandsFor (D.seen disk) f.doc.log) }
    ensures whole { IfOk result (λ f. (kept_of f.file).mark.version ≡ length f.doc.log) }
    ensures room { IfOk result (λ f. (kept_of f.file).room ≡ room) }
    ensures unreserved { IfOk result (λ f. f.doc.reserved ≡ 0) }
    ensures tail { IfOk result (λ f. D.honest disk → IsCutShort (kept_of f.file).mark.length (tail_of f.file) (D.seen disk)) }
    ensures some { IfOk result (λ f. HasTail f.file) }

    // A crash at any moment leaves what it could have left before.
    ensures any_moment { MatchResult result
        (λ f. D.honest disk → LeavesOnly D.moment D.left_since disk (kept_of f.file).disk (D.may_leave disk))
        (λ u. D.honest disk → LeavesOnly D.moment D.left_since disk u.disk (D.may_leave disk)) }

    ensures none { IfErr result (λ u. (n : ℕ) → u.why ≡ Line n → D.honest disk → StandsForNone (D.seen disk)) }
    ensures line { IfErr result (λ u. (n : ℕ) → u.why ≡ Line n → D.honest disk → IsFirstFault n (whole_lines (D.seen disk))) }
    ensures no_line { IfErr result (λ u. (n : ℕ) → u.why ≡ Tail n → D.honest disk → IsNoLine n (D.seen disk)) }
    ensures file { IfErr result (λ u. (e : Error) → u.why ≡ File e → D.honest disk → D.faults disk < D.faults u.disk) }
    ensures honest { MatchResult result
        (λ f. D.honest disk → D.honest (kept_of f.file).disk × (D.faults disk ≤ D.faults (kept_of f.file).disk))
        (λ u. D.honest disk → D.honest u.disk × (D.faults disk ≤ D.faults u.disk)) }
{
    let mut disk = disk;
    let read = match look(alloc, &mut disk) {
        Ok(read) => read,
        Err(why) => return Err(Unopened { why, disk }),
    };
    let Read { doc, mark, bytes } = read;
    match tail_behind(alloc, mark.length as usize, bytes.as_slice()) {
        Ok(tail) => {
            let is_clean = mark.length == bytes.len() as u64;
            let kept = KeptFile::new(disk, room, mark, is_clean);
            let file = FoundFile::of(kept, tail);
            Ok(Found { file, doc })
        }
        Err(why) => Err(Unopened { why, disk }),
    }
}

// What stands behind the whole lines of bytes, which take so many of them.
fn tail_behind(alloc: Global, front: usize, bytes: &[u8]) -> Result<Vec<u8>, OpenFault>
    requires within { front ≤ length bytes.now }
    ensures tail { IfOk result (λ tail. tail.items ≡ drop front bytes.now) }
    ensures short { IfOk result (λ tail. (tail.items ≡ []) ⊎ ((0 < front) × (length tail.items ≤ 65536))) }
    ensures cause { IfErr result (λ why. (why ≡ Memory) ⊎ ((n : ℕ) × (why ≡ Tail n) × (front + n ≡ length bytes.now) × (0 < n)
        × ((front ≡ 0) ⊎ (65536 < n)))) }
{
    let torn = bytes.len() - front;
    if torn > 0 && (front == 0 || torn > LONGEST) {
        return Err(OpenFault::Tail(torn));
    }
    match bytes[front..].to_vec(alloc) {
        Ok(tail) => Ok(tail),
        Err(_) => Err(OpenFault::Memory),
    }
}

// What stands in a file, and its bytes.
#[derive(Drop)]
struct Read {
    doc: Doc,
    mark: Mark,
    bytes: Vec<u8>,
}

// Reads a file that it syncs first.
fn look<D: Disk>(alloc: Global, disk: &mut D) -> Result<Read, OpenFault>
    ensures found { IfOk result (λ f. (b : Bool) → (b ≡ true → f.mark.length ≡ length f.bytes.items) → D.honest disk.old
        → IsHeld (D.fresh disk.old) (D.seen disk.old) (D.may_leave disk.old)
        → KeepsAt D.honest D.seen D.may_leave D.fresh disk.new f.mark b f.doc.log) }
    ensures stands { IfOk result (λ f. D.honest disk.old → StandsFor (D.seen disk.old) f.doc.log) }
    ensures whole { IfOk result (λ f. f.mark.version ≡ length f.doc.log) }
    ensures unreserved { IfOk result (λ f. f.doc.reserved ≡ 0) }
    ensures bytes { IfOk result (λ f. D.honest disk.old → f.bytes.items ≡ D.seen disk.old) }
    ensures ends { IfOk result (λ f. EndsLines f.mark.length f.bytes.items) }
    ensures any_moment { D.honest disk.old → LeavesOnly D.moment D.left_since disk.old disk.new (D.may_leave disk.old) }
    ensures none { (n : ℕ) → result ≡ Err (Line n) → D.honest disk.old → StandsForNone (D.seen disk.old) }
    ensures line { (n : ℕ) → result ≡ Err (Line n) → D.honest disk.old → IsFirstFault n (whole_lines (D.seen disk.old)) }
    ensures no_tail { (n : ℕ) → result ≡ Err (Tail n) → ⊥ }
    ensures file { (e : Error) → result ≡ Err (File e) → D.honest disk.old → D.faults disk.old < D.faults disk.new }
    ensures honest { D.honest disk.old → D.honest disk.new × (D.faults disk.old ≤ D.faults disk.new) }
{
    disk.sync()?;
    let bytes = disk.read(alloc)?;
    match read_journal(alloc, bytes.as_slice()) {
        Ok(journal) => Ok(Read {
            mark: Mark {
                version: journal.doc.version(),
                length: journal.length as u64,
                digest: journal.digest,
            },
            doc: journal.doc,
            bytes,
        }),
        Err(JournalFault::Memory) => Err(OpenFault::Memory),
        Err(JournalFault::Line(line)) => Err(OpenFault::Line(line)),
    }
}
