//! A reader or writer with the number of its calls that failed.
ghost use Rattle.std.specs.Prelude.{◌≡◌, ◌⊎◌, ◌+◌, ◌-◌, ◌^◌, ℕ, List, [], Result, ◌<◌, min, take, length, MatchOption, MatchBool, IfOk};
ghost use Rattle.std.specs.Io.KnownBytes.{Keeps, Appends, Consumes, IsAtEnd};
ghost use Rattle.std.specs.declared.io.Error.{Error};
ghost use Rattle.line_engine.specs.Calls.{Makes, of_bytes, failed_reads, CountsWrites};
ghost use Rattle.line_engine.specs.Counting.{ReadGave, WriteTook, WroteAll};

use crate::sink::Sink;
use crate::source::Source;

/// A reader or writer with the number of its calls that failed, or that wrote 0 bytes.
#[derive(Debug, Drop)]
pub struct Counted<T> {
    inner: T,
    // How often it was read. A read past 2^64 - 1 fails, so no reader is read for ever (docs/decisions, P5).
    calls: u64,
    failures: u64,
}

impl<T> Counted<T> {
    /// Counts the failures of a reader or writer, from 0 on. Constant time.
    pub fn new(inner: T) -> Self
        ensures inner { result.inner ≡ inner }
        ensures none_made { result.calls ≡ 0 }
        ensures none_failed { result.failures ≡ 0 }
    {
        Counted {
            inner,
            calls: 0,
            failures: 0,
        }
    }

    /// How many calls failed, or wrote 0 bytes. Constant time.
    pub fn failures(&self) -> u64
        ensures { result ≡ self.now.failures }
    {
        self.failures
    }

    /// The reader or writer. Constant time.
    pub fn into_inner(self) -> T
        ensures { result ≡ self.inner }
    {
        let Counted {
            inner,
            calls: _,
            failures: _,
        } = self;
        inner
    }
}

impl<R: Source> Counted<R> {
    /// One read: how many bytes it gave, 0 at the end alone, or `None` where it failed.
    ///
    /// After 2^64 - 1 reads each further one fails, and is counted: so a reader that never ends is left at last. Takes
    /// the time of one call of the reader.
    pub fn read(&mut self, buf: &mut [u8]) -> Option<usize>
        requires free { 0 < length buf.old }
        requires few_failed { self.old.failures < 2 ^ 63 }
        ensures gave { ReadGave (R.remaining self.old.inner) (R.remaining self.new.inner) result buf.new }
        ensures counted { MatchOption result (self.new.failures ≡ self.old.failures + 1) (λ _. self.new.failures ≡ self.old.failures) }
        ensures made { (results : List (Result ℕ Error)) × Makes
            (λ s r t. R.reads s (length buf.old) r t) self.old.inner results self.new.inner
            × (self.new.calls ≡ self.old.calls + length results)
            × ((self.new.failures ≡ self.old.failures + failed_reads results)
            ⊎ ((self.new.calls ≡ 2 ^ 64 - 1) × (results ≡ []) × (self.new.failures ≡ self.old.failures + 1))) }
        ensures calls { MatchOption result (self.new.calls ≡ min (self.old.calls + 1) (2 ^ 64 - 1))
            (λ _. self.new.calls ≡ self.old.calls + 1) }
    {
        if self.calls == u64::MAX {
            self.failures += 1;
            return None;
        }
        self.calls += 1;
        match self.inner.read_once(buf) {
            Ok(n) => Some(n),
            Err(_) => {
                self.failures += 1;
                None
            }
        }
    }
}

impl<W: Sink> Counted<W> {
    /// One write: how many bytes it took, or `None` where it failed or took none. Takes the time of one call of the
    /// writer.
    pub fn write(&mut self, buf: &[u8]) -> Option<usize>
        requires few_failed { self.old.failures < 2 ^ 63 }
        ensures took { WriteTook (W.contents self.old.inner) (W.contents self.new.inner) result buf.now }
        ensures counted { MatchOption result (self.new.failures ≡ self.old.failures + 1) (λ _. self.new.failures ≡ self.old.failures) }
        ensures made { CountsWrites (λ s r t. W.writes s (length buf.now) r t) self.old.inner self.old.failures self.new.inner
            self.new.failures }
        ensures reads { self.new.calls ≡ self.old.calls }
    {
        match self.inner.write_once(buf) {
            Ok(0) => {
                self.failures += 1;
                None
            }
            Ok(n) => Some(n),
            Err(_) => {
                self.failures += 1;
                None
            }
        }
    }

    /// Writes all the bytes, in one call where the writer takes them whole. `false` where a call failed or took none:
    /// then some of the bytes may be written. Makes at most as many calls as there are bytes.
    #[tactic(auto, using(crate::proofs::Making::writes_none, crate::proofs::Making::writes_once, crate::proofs::Making::writes_more))]
    pub fn write_all(&mut self, bytes: &[u8]) -> bool
        requires few_failed { self.old.failures < 2 ^ 63 }
        ensures wrote { WroteAll (W.contents self.old.inner) (W.contents self.new.inner) result bytes.now }
        ensures counted { MatchBool result (self.new.failures ≡ self.old.failures) (self.new.failures ≡ self.old.failures + 1) }
        ensures made { CountsWrites (of_bytes W.writes) self.old.inner self.old.failures self.new.inner self.new.failures }
        ensures reads { self.new.calls ≡ self.old.calls }
    {
        let mut rest = bytes;
        while !rest.is_empty() {
            match self.write(rest) {
                Some(n) => rest = &rest[n..],
                None => return false,
            }
        }
        true
    }
}
