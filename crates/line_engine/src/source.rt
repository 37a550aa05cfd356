//! Readers of whose calls generic code knows that they were made.
ghost use Rattle.std.specs.Io.KnownBytes.{ReadConsumes};
ghost use Rattle.std.specs.Io.{ReadsAtMost};

use std::io;
use std::io::Read;

/// A reader, of whose calls generic code knows that they were made. Each reader is one.
pub trait Source: Read {
    ghost use Rattle.std.specs.Prelude.{ℕ, List, length, Result};
    ghost use Rattle.std.specs.declared.io.Error.{Error};

    // From the first state a call of the reader for at most so many bytes may give this result, and leave the second.
    ghost reads: { Self → ℕ → Result ℕ Error → Self → Type 0 };

    /// One read of the reader. Takes what that takes.
    fn read_once(&mut self, buf: &mut [u8]) -> io::Result<usize>
        ensures bound { ReadsAtMost result buf.new }
        ensures bytes { ReadConsumes (Self.remaining self.old) (Self.remaining self.new) result buf.new }
        ensures made { reads self.old (length buf.old) result self.new };
}

impl<R: Read> Source for R {
    ghost reads = { λ _ _ _ _. Unit {0} };

    fn read_once(&mut self, buf: &mut [u8]) -> io::Result<usize> {
        self.read(buf)
    }
}
