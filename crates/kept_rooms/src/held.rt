//! A stream whose output waits until it may go out.
ghost use Rattle.std.specs.Prelude.{◌≡◌, [], IfOk, OnOk, length, true, false};
ghost use Rattle.std.specs.Io.{ReadsAtMost, WritesAtMost};
ghost use Rattle.std.specs.Io.KnownBytes.{Appends, Keeps, ReadConsumes, WriteAppends, append_known};

use std::alloc::Global;
use std::io;
use std::io::{Error, ErrorKind, Read, Write};

// So much memory is given back where more bytes than these had waited.
const SMALL: usize = 65_536;

/// A stream whose output waits in memory until it is released. No read waits for the other side while output waits: it is put off, with
/// `WouldBlock`.
#[derive(Drop)]
pub struct HeldStream<S> {
    alloc: Global,
    stream: S,
    held: Vec<u8>,
    is_put_off: bool,
}

impl<S> HeldStream<S> {
    /// Over a stream, with nothing that waits. Constant time, and no memory.
    pub fn new(alloc: Global, stream: S) -> HeldStream<S>
        ensures stream { result.stream ≡ stream }
        ensures nothing { result.held.items ≡ [] }
    {
        HeldStream {
            alloc,
            stream,
            held: Vec::new(alloc),
            is_put_off: false,
        }
    }

    /// How many bytes wait. Constant time.
    pub fn waiting(&self) -> usize
        ensures { result ≡ length self.now.held.items }
    {
        self.held.len()
    }

    /// Whether a read was put off since the last release. Constant time.
    pub fn is_put_off(&self) -> bool
        ensures { result ≡ self.now.is_put_off }
    {
        self.is_put_off
    }
}

impl<S: Write> HeldStream<S> {
    // Writes out all that waits, in one write where the stream takes it whole. An error is the stream's; then some of the bytes may be
    // written.
    pub(crate) fn write_out(&mut self) -> io::Result<()>
        ensures sent { OnOk result (Appends (S.contents self.old.stream) (S.contents self.new.stream) self.old.held.items) }
        ensures nothing { OnOk result (self.new.held.items ≡ []) }
        ensures goes_on { self.new.is_put_off ≡ false }
    {
        self.is_put_off = false;
        self.stream.write_all(self.held.as_slice())?;
        if self.held.len() > SMALL {
            self.held = Vec::new(self.alloc);
        } else {
            self.held.clear();
        }
        Ok(())
    }
}

impl<S: Read> Read for HeldStream<S> {
    ghost remaining = { λ it. S.remaining it.stream };

    /// Reads the stream where nothing waits; else it is put off, and nothing is read.
    fn read(&mut self, buf: &mut [u8]) -> io::Result<usize>
        ensures bound { ReadsAtMost result buf.new }
        ensures bytes { ReadConsumes (S.remaining self.old.stream) (S.remaining self.new.stream) result buf.new }
        ensures held { self.new.held ≡ self.old.held }
        ensures put_off { (self.old.held.items ≡ [] → ⊥) → (self.new.is_put_off ≡ true) × (self.new.stream ≡ self.old.stream) }
        ensures goes_on { self.old.held.items ≡ [] → self.new.is_put_off ≡ self.old.is_put_off }
    {
        if !self.held.is_empty() {
            self.is_put_off = true;
            return Err(Error::from(ErrorKind::WouldBlock));
        }
        self.stream.read(buf)
    }
}

impl<S: Write> Write for HeldStream<S> {
    ghost contents = { λ it. append_known (S.contents it.stream) it.held.items };

    /// Puts the bytes behind those that wait. The only error is for want of memory. The stream isn't written to.
    fn write(&mut self, buf: &[u8]) -> io::Result<usize>
        ensures bound { WritesAtMost result buf.now }
        ensures bytes { WriteAppends (append_known (S.contents self.old.stream) self.old.held.items)
            (append_known (S.contents self.new.stream) self.new.held.items) result buf.now }
        ensures waits { self.new.stream ≡ self.old.stream }
        ensures whole { IfOk result (λ n. n ≡ length buf.now) }
        ensures goes_on { self.new.is_put_off ≡ self.old.is_put_off }
    {
        self.held.extend_from_slice(buf)?;
        Ok(buf.len())
    }

    /// Nothing: what waits is released alone.
    fn flush(&mut self) -> io::Result<()>
        ensures bytes { Keeps (append_known (S.contents self.old.stream) self.old.held.items)
            (append_known (S.contents self.new.stream) self.new.held.items) }
        ensures waits { self.new ≡ self.old }
    {
        Ok(())
    }
}
