// A file in memory. It keeps what it had at first and each call, and replays them: so it is known what a crash at any moment leaves.
ghost use Rattle.std.specs.Prelude.{◌≡◌, ◌++◌, ◌∷◌, [], ℕ, length, take, IfOk, OnOk, OnErr};
ghost use Rattle.keeper.specs.Disk.{Only};
ghost use Rattle.keeper.specs.Memory.{seen_next, seen_after, LeftAfter, LeftSince, memory_bytes, MemoryLeft, TearsLast, LeavesAll};
ghost use Rattle.keeper.specs.Internal.MemoryLaws.{now_counts, now_only};
ghost use Rattle.keeper.specs.declared.memory.Call.TheVariants.{Append};

use crate::disk::Disk;
use crate::failures::Failures;
use std::alloc::{AllocError, Global};
use std::io;
use std::io::{Error, ErrorKind};

// What a call did.
#[derive(Drop)]
enum Call {
    Append(Vec<u8>),
    Cut(usize),
    Sync,
}

/// A file in memory, of which a crash leaves what a disk may leave: an append since the last sync may be torn, and a cut undone. Its calls
/// can be made to fail. For tests: a read takes time in proportion to all that was written.
#[derive(Drop)]
pub struct MemoryFile {
    alloc: Global,
    first: Vec<u8>,
    calls: Vec<Call>,
    failures: Failures,
    // How much an append that fails writes.
    written: usize,
}

impl MemoryFile {
    /// A file with these bytes, all of them on the disk.
    pub fn new(alloc: Global, bytes: Vec<u8>) -> Self
        ensures bytes { memory_bytes result ≡ bytes.items }
        ensures durable { Only bytes.items (MemoryLeft result) }
        ensures failures { result.failures.left ≡ 0 }
    {
        MemoryFile::failing(alloc, bytes, 0, 0, 0)
    }

    /// A file with these bytes of which, after so many calls, so many fail. An append that fails writes so many bytes, or all.
    pub fn failing(
        alloc: Global,
        bytes: Vec<u8>,
        after: usize,
        failures: usize,
        written: usize,
    ) -> Self
        ensures bytes { memory_bytes result ≡ bytes.items }
        ensures durable { Only bytes.items (MemoryLeft result) }
        ensures after { result.failures.after ≡ after }
        ensures failures { result.failures.left ≡ failures }
        ensures written { result.written ≡ written }
    {
        MemoryFile {
            alloc,
            first: bytes,
            calls: Vec::new(alloc),
            failures: Failures {
                after,
                left: failures,
                failed: 0,
            },
            written,
        }
    }

    /// What a read returns.
    pub fn bytes(&self, alloc: Global) -> Result<Vec<u8>, AllocError>
        ensures { IfOk result (λ bytes. bytes.items ≡ memory_bytes self.now) }
    {
        replayed(alloc, &self.first, &self.calls)
    }

    /// What a crash at this moment may leave: of an append that was the last call, so many bytes and then so many zeros; else all.
    pub fn torn(&self, alloc: Global, size: usize, zeros: usize) -> Result<Vec<u8>, AllocError>
        ensures left { IfOk result (λ bytes. MemoryLeft self.now bytes.items) }
        ensures torn { IfOk result (λ bytes. TearsLast self.now size zeros bytes.items) }
        ensures whole { IfOk result (λ bytes. LeavesAll self.now bytes.items) }
    {
        if let Some((Call::Append(more), before)) = self.calls.split_last() {
            let mut left = replayed(alloc, &self.first, before)?;
            left.extend_from_slice(&more[..more.len().min(size)])?;
            left.resize(left.len().saturating_add(zeros), 0)?;
            return Ok(left);
        }
        replayed(alloc, &self.first, &self.calls)
    }
}

// Keeps what an append has written.
fn push_append(alloc: Global, calls: &mut Vec<Call>, bytes: &[u8]) -> Result<(), AllocError>
    ensures ok { OnOk result ((v : _) × (v.items ≡ bytes.now) × (calls.new.items ≡ calls.old.items ++ Append v ∷ [])) }
    ensures err { OnErr result (calls.new.items ≡ calls.old.items) }
{
    let copy = bytes.to_vec(alloc)?;
    calls.push(Call::Append(copy))?;
    Ok(())
}

// What is there after calls.
fn replayed(alloc: Global, first: &[u8], calls: &[Call]) -> Result<Vec<u8>, AllocError>
    ensures { IfOk result (λ bytes. bytes.items ≡ seen_after first.now calls.now) }
{
    let mut bytes = first.to_vec(alloc)?;
    for call in calls {
        redo(&mut bytes, call)?;
    }
    Ok(bytes)
}

// Does what a call did.
fn redo(bytes: &mut Vec<u8>, call: &Call) -> Result<(), AllocError>
    ensures { OnOk result (bytes.new.items ≡ seen_next bytes.old.items call.now) }
{
    match call {
        Call::Append(more) => bytes.extend_from_slice(more)?,
        Call::Cut(len) => bytes.truncate(*len),
        Call::Sync => {}
    }
    Ok(())
}

impl Disk for MemoryFile {
    ghost honest = { λ m. Unit {0} };

    ghost is_own = { λ m. Unit {0} };

    ghost seen = { λ m. seen_after m.first.items m.calls.items };

    ghost may_leave = { λ m c. LeftAfter m.first.items m.calls.items c };

    ghost fresh = { λ m. 0 };

    ghost moment = { λ m. length m.calls.items };

    ghost left_since = { λ m t c. LeftSince m.first.items m.calls.items t c };

    ghost faults = { λ m. m.failures.failed };

    ghost counts_now = { λ m t c truth le now. now_counts m.first.items m.calls.items t c le now };

    ghost only_now = { λ m c truth left. now_only m.first.items m.calls.items c left };

    fn read(&mut self, alloc: Global) -> io::Result<Vec<u8>> {
        if self.failures.next() {
            return Err(Error::from(ErrorKind::Other));
        }
        Ok(replayed(alloc, &self.first, &self.calls)?)
    }

    fn check(&self) -> io::Result<()> {
        Ok(())
    }

    fn cut(&mut self, len: u64) -> io::Result<()> {
        if self.failures.next() {
            return Err(Error::from(ErrorKind::Other));
        }
        self.calls.push(Call::Cut(len as usize))?;
        Ok(())
    }

    fn append(&mut self, bytes: &[u8]) -> io::Result<()> {
        if self.failures.next() {
            push_append(
                self.alloc,
                &mut self.calls,
                &bytes[..bytes.len().min(self.written)],
            )?;
            return Err(Error::from(ErrorKind::StorageFull));
        }
        push_append(self.alloc, &mut self.calls, bytes)?;
        Ok(())
    }

    fn sync(&mut self) -> io::Result<()> {
        if self.failures.next() {
            return Err(Error::from(ErrorKind::Other));
        }
        self.calls.push(Call::Sync)?;
        Ok(())
    }
}
