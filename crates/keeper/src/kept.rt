//! A file in which a room's log is kept, and how far it is known to stand there.
ghost use Rattle.std.specs.Prelude.{◌≡◌, ◌⊎◌, ◌≤◌, ◌<◌, ◌+◌, ◌++◌, [], true, Ok, Err, List, ℕ, length, take, drop, OnOk, OnErr};
ghost use Rattle.std.specs.declared.io.Error.{Error};
ghost use Rattle.opid.specs.Operations.{Operation};
ghost use Rattle.keeper.specs.Disk.{LeavesOnly};
ghost use Rattle.keeper.specs.Turn.{OpensAs};
ghost use Rattle.keeper.specs.Kept.{Keeps, IsTurn, HasTurned, HasKept, HasWritten};

use crate::disk::Disk;
use crate::fault::KeepFault;
use causal_clock::Op;
use journal::{Lines, Mark, write_lines};
use std::alloc::Global;
use versions::MAX_OPERATIONS;

/// That so many operations of a room's log are kept: made by nothing but `KeptFile::kept`, or of no operations.
#[derive(Clone, Copy, Debug, PartialEq, Eq)]
pub struct Kept {
    room: usize,
    version: u32,
}

impl Kept {
    /// Nothing is kept of the room in this place.
    pub fn nothing(room: usize) -> Kept
        ensures room { result.room ≡ room }
        ensures version { result.version ≡ 0 }
    {
        Kept { room, version: 0 }
    }

    /// The place of the room in its hall.
    pub fn room(&self) -> usize
        ensures { result ≡ self.now.room }
    {
        self.room
    }

    /// How many operations of its log.
    pub fn version(&self) -> u32
        ensures { result ≡ self.now.version }
    {
        self.version
    }
}

/// A file in which a room's log is kept. What stands in its first `mark.length` bytes is on the disk, and tells the log's first
/// `mark.version` operations.
#[derive(Drop)]
pub struct KeptFile<D: Disk> {
    disk: D,
    room: usize,
    mark: Mark,
    // Whether the file ends with the mark, and all of it is on the disk.
    is_clean: bool,
}

impl<D: Disk> KeptFile<D> {
    // A file in which so much was found.
    pub(crate) fn new(disk: D, room: usize, mark: Mark, is_clean: bool) -> Self
        ensures { result ≡ record { disk = disk; room = room; mark = mark; is_clean = is_clean } }
    {
        KeptFile {
            disk,
            room,
            mark,
            is_clean,
        }
    }

    /// The place of its room in its hall, as it was opened for.
    pub fn room(&self) -> usize
        ensures { result ≡ self.now.room }
    {
        self.room
    }

    /// How many operations are kept in it.
    pub fn version(&self) -> u32
        ensures { result ≡ self.now.mark.version }
    {
        self.mark.version
    }

    /// In how many bytes.
    pub fn len(&self) -> u64
        ensures { result ≡ self.now.mark.length }
    {
        self.mark.length
    }

    /// A receipt of that.
    pub fn kept(&self) -> Kept
        ensures room { result.room ≡ self.now.room }
        ensures version { result.version ≡ self.now.mark.version }
    {
        Kept {
            room: self.room,
            version: self.mark.version,
        }
    }

    /// Its disk.
    pub fn disk(&self) -> &D
        ensures { result.now ≡ self.now.disk }
    {
        &self.disk
    }

    /// Keeps the operations of the log that follow those in the file: at `Ok` they are on the disk. What a turn that failed has left is
    /// cut off first. With no operations it only does that, and does nothing where nothing was left.
    ///
    /// After an error the mark is where it was, and the next turn can begin there. `Full` where there would be more than 131,072
    /// operations, `Strayed` where somebody else has changed the file, `File` where the disk failed, and `Memory`. Takes time and memory in
    /// proportion to the lines, and one sync: two after a turn that failed.
    pub fn keep(&mut self, alloc: Global, ops: &[Op]) -> Result<(), KeepFault>
        ensures room { self.new.room ≡ self.old.room }

        // Whatever comes of it, a crash at any moment leaves a beginning of the log, with what was kept before.
        ensures turned { HasTurned D.honest D.seen D.may_leave D.fresh D.moment D.left_since self.old self.new ops.now }

        ensures kept { OnOk result (HasKept D.honest D.seen D.may_leave D.fresh self.old self.new ops.now) }
        ensures written { OnOk result ((log : List Operation) → Keeps D.honest D.seen D.may_leave D.fresh self.old log
            → HasWritten D.seen self.old self.new ops.now) }
        ensures failed { OnErr result (self.new.mark ≡ self.old.mark) }
        ensures own { (self.new ≡ self.old) ⊎ D.is_own self.old.disk }
        ensures idle { ops.now ≡ [] → self.old.is_clean ≡ true → (D.honest self.old.disk → result ≡ Ok record {})
            × (self.new ≡ self.old) }

        // It doesn't give up by itself.
        ensures full { result ≡ Err KeepFault.Full → MAX_OPERATIONS < self.old.mark.version + length ops.now }
        ensures strayed { (e : Error) → result ≡ Err (KeepFault.Strayed e) → D.honest self.old.disk → ⊥ }
        ensures file { (e : Error) → result ≡ Err (KeepFault.File e) → D.honest self.old.disk
            → D.faults self.old.disk < D.faults self.new.disk }
        ensures honest { D.honest self.old.disk → D.honest self.new.disk × (D.faults self.old.disk ≤ D.faults self.new.disk) }
    {
        if let Err(why) = self.disk.check() {
            return Err(KeepFault::Strayed(why));
        }
        self.settle()?;
        if ops.is_empty() {
            return Ok(());
        }
        self.add(alloc, ops)
    }

    // Cuts off what a turn that failed has left behind the mark. The cut has to be on the disk before anything is written there.
    fn settle(&mut self) -> Result<(), KeepFault>
        ensures room { self.new.room ≡ self.old.room }
        ensures mark { self.new.mark ≡ self.old.mark }
        ensures clean { OnOk result (self.new.is_clean ≡ true) }
        ensures cut { OnOk result ((log : List Operation) → Keeps D.honest D.seen D.may_leave D.fresh self.old log
            → D.seen self.new.disk ≡ take self.old.mark.length (D.seen self.old.disk)) }
        ensures idle { self.old.is_clean ≡ true → (result ≡ Ok record {}) × (self.new ≡ self.old) }
        ensures keeps { (log : List Operation) → Keeps D.honest D.seen D.may_leave D.fresh self.old log
            → Keeps D.honest D.seen D.may_leave D.fresh self.new log
            × LeavesOnly D.moment D.left_since self.old.disk self.new.disk (OpensAs self.old.mark.version log) }
        ensures full { result ≡ Err KeepFault.Full → ⊥ }
        ensures strayed { (e : Error) → result ≡ Err (KeepFault.Strayed e) → ⊥ }
        ensures file { (e : Error) → result ≡ Err (KeepFault.File e) → D.honest self.old.disk
            → D.faults self.old.disk < D.faults self.new.disk }
        ensures honest { D.honest self.old.disk → D.honest self.new.disk × (D.faults self.old.disk ≤ D.faults self.new.disk) }
    {
        if !self.is_clean {
            self.disk.cut(self.mark.length)?;
            self.disk.sync()?;
            self.is_clean = true;
        }
        Ok(())
    }

    // Keeps operations in a file that ends with the mark.
    fn add(&mut self, alloc: Global, ops: &[Op]) -> Result<(), KeepFault>
        ensures room { self.new.room ≡ self.old.room }
        ensures turned { self.old.is_clean ≡ true
            → HasTurned D.honest D.seen D.may_leave D.fresh D.moment D.left_since self.old self.new ops.now }
        ensures kept { OnOk result (self.old.is_clean ≡ true → HasKept D.honest D.seen D.may_leave D.fresh self.old self.new ops.now) }
        ensures written { OnOk result (self.old.is_clean ≡ true → (log : List Operation)
            → Keeps D.honest D.seen D.may_leave D.fresh self.old log → HasWritten D.seen self.old self.new ops.now) }
        ensures failed { OnErr result (self.new.mark ≡ self.old.mark) }
        ensures full { result ≡ Err KeepFault.Full → MAX_OPERATIONS < self.old.mark.version + length ops.now }
        ensures strayed { (e : Error) → result ≡ Err (KeepFault.Strayed e) → ⊥ }
        ensures file { (e : Error) → result ≡ Err (KeepFault.File e) → D.honest self.old.disk
            → D.faults self.old.disk < D.faults self.new.disk }
        ensures honest { D.honest self.old.disk → D.honest self.new.disk × (D.faults self.old.disk ≤ D.faults self.new.disk) }
    {
        let version = ops.len().saturating_add(self.mark.version as usize);
        if version > MAX_OPERATIONS {
            return Err(KeepFault::Full);
        }
        let Ok(lines) = write_lines(alloc, &self.mark.digest, self.mark.version, ops) else {
            return Err(KeepFault::Memory);
        };
        let Lines { text, digest } = lines;
        let Some(length) = self.mark.length.checked_add(text.len() as u64) else {
            return Err(KeepFault::Memory);
        };
        let next = Mark {
            version: version as u32,
            length,
            digest,
        };
        self.write(text.as_bytes(), next)
    }

    // Writes lines behind the mark, and moves it behind them.
    fn write(&mut self, lines: &[u8], next: Mark) -> Result<(), KeepFault>
        ensures room { self.new.room ≡ self.old.room }
        ensures kept { OnOk result (self.new.mark ≡ next) }
        ensures written { OnOk result (D.honest self.old.disk → D.seen self.new.disk ≡ D.seen self.old.disk ++ lines.now) }
        ensures failed { OnErr result (self.new.mark ≡ self.old.mark) }
        ensures keeps { (log : List Operation) → Keeps D.honest D.seen D.may_leave D.fresh self.old log
            → IsTurn (D.seen self.old.disk) self.old.mark next log lines.now → self.old.is_clean ≡ true
            → Keeps D.honest D.seen D.may_leave D.fresh self.new log
            × LeavesOnly D.moment D.left_since self.old.disk self.new.disk (OpensAs self.old.mark.version log) }
        ensures full { result ≡ Err KeepFault.Full → ⊥ }
        ensures strayed { (e : Error) → result ≡ Err (KeepFault.Strayed e) → ⊥ }
        ensures file { (e : Error) → result ≡ Err (KeepFault.File e) → D.honest self.old.disk
            → D.faults self.old.disk < D.faults self.new.disk }
        ensures honest { D.honest self.old.disk → D.honest self.new.disk × (D.faults self.old.disk ≤ D.faults self.new.disk) }
    {
        self.is_clean = false;
        self.disk.append(lines)?;
        self.disk.sync()?;
        self.mark = next;
        self.is_clean = true;
        Ok(())
    }
}
