//! Writers of whose calls generic code knows that they were made.
ghost use Rattle.std.specs.Io.KnownBytes.{WriteAppends};
ghost use Rattle.std.specs.Io.{WritesAtMost};

use std::io;
use std::io::Write;

/// A writer, of whose calls generic code knows that they were made. Each writer is one.
pub trait Sink: Write {
    ghost use Rattle.std.specs.Prelude.{ℕ, length, Result};
    ghost use Rattle.std.specs.declared.io.Error.{Error};

    // From the first state a call of the writer with so many bytes may give this result, and leave the second.
    ghost writes: { Self → ℕ → Result ℕ Error → Self → Type 0 };

    /// One write of the writer. Takes what that takes.
    fn write_once(&mut self, buf: &[u8]) -> io::Result<usize>
        ensures bound { WritesAtMost result buf.now }
        ensures bytes { WriteAppends (Self.contents self.old) (Self.contents self.new) result buf.now }
        ensures made { writes self.old (length buf.now) result self.new };
}

impl<W: Write> Sink for W {
    ghost writes = { λ _ _ _ _. Unit {0} };

    fn write_once(&mut self, buf: &[u8]) -> io::Result<usize> {
        self.write(buf)
    }
}
