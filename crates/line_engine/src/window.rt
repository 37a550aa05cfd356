//! The bytes that were read and not yet served, in one buffer that is kept, and the next line of them.
ghost use Rattle.std.specs.Prelude.{◌≡◌, ℕ, ◌+◌, ◌-◌, ◌*◌, ◌^◌, ◌<◌, ◌≤◌, List, [], ◌∷◌, ◌++◌, length, take, drop, vec_len, OnOk, IfOk};
ghost use Rattle.std.specs.Prelude.{IsNone, IsSome, OnSome, MatchOption, All, Some};
ghost use Rattle.std.specs.Io.KnownBytes.{Keeps, Consumes, IsAtEnd};
ghost use Rattle.line_engine.specs.Calls.{for_a_block, CountsReads};
ghost use Rattle.wire_json.specs.Line.{IsLine};
ghost use Rattle.line_engine.specs.Internal.Turns.{work, Cuts, Skips, EndsAtLast, Fills};

use crate::counted::Counted;
use crate::source::Source;
use memchr::memchr;
use std::alloc::{AllocError, Global};
use std::marker::Model;

// The least that is free for a read.
const BLOCK_BYTES: usize = 65_536;

// The buffer takes a longest line and a block behind it.
const BUFFER_BYTES: usize = 131_136;

/// The bytes that were read and not yet served. Contracts see them as a list.
#[derive(Drop)]
pub struct Window {
    buf: Vec<u8>,
    start: usize,
    len: usize,
}

impl Model for Window {
    ghost Value = { List ℕ };

    ghost view = { λ w. take w.len (drop w.start w.buf.items) };

    ghost invariant = { λ w. (w.start + w.len ≤ 131136) × (length w.buf.items ≡ 131136) };
}

/// The next line of the bytes at hand.
#[derive(Clone, Copy)]
pub(crate) enum Next {
    /// It has this many bytes, and stands at the front with its LF.
    Line(usize),
    /// It was longer than the limit, and was skipped with its LF.
    Long,
    /// The input ended: the last line, without LF, has this many bytes and stands alone.
    Last(usize),
    /// The input ended in a line longer than the limit.
    LastLong,
}

impl Window {
    /// An empty window. An error is for want of memory. Takes 131,136 bytes, and clears them.
    pub fn new(alloc: Global) -> Result<Self, AllocError>
        ensures { IfOk result (λ window. window ≡ []) }
    {
        let buf = vec![in alloc; 0u8; BUFFER_BYTES]?;
        Ok(Window {
            buf,
            start: 0,
            len: 0,
        })
    }

    pub(crate) fn len(&self) -> usize
        ensures len { result ≡ length self.now }
        ensures free { result ≤ 131136 }
    {
        self.len
    }

    pub(crate) fn bytes(&self) -> &[u8]
        ensures { result.now ≡ self.now }
    {
        &self.buf[self.start..self.start + self.len]
    }

    /// Forgets the first `n` bytes.
    pub(crate) fn advance(&mut self, n: usize)
        requires { n ≤ length self.old }
        ensures { self.new ≡ drop n self.old }
    {
        self.start += n;
        self.len -= n;
    }

    pub(crate) fn clear(&mut self)
        ensures { self.new ≡ [] }
    {
        self.start = 0;
        self.len = 0;
    }

    /// One read, into all that is free behind the bytes: how many it gave, or `None` where it failed.
    pub(crate) fn fill<R: Source>(&mut self, input: &mut Counted<R>) -> Option<usize>
        requires free { length self.old ≤ 65600 }
        requires few_failed { input.old.failures < 2 ^ 63 }
        ensures fills { Fills (R.remaining input.old.inner) (R.remaining input.new.inner) self.old result self.new }
        ensures counted { MatchOption result (input.new.failures ≡ input.old.failures + 1) (λ _. input.new.failures ≡ input.old.failures) }
        ensures made { CountsReads (for_a_block R.reads) input.old.inner input.old.calls input.old.failures input.new.inner input.new.calls
            input.new.failures }
        ensures work { OnSome result (work input.new.calls self.new < work input.old.calls self.old) }
    {
        self.start = moved_start(&mut self.buf, self.start, self.len);
        let end = self.start + self.len;
        match read_behind(self.buf.as_mut_slice(), end, input) {
            None => None,
            Some(got) => {
                self.len += got;
                Some(got)
            }
        }
    }
}

// Moves the bytes held to the front where less than a block is free behind them, and says where they begin.
fn moved_start(buf: &mut Vec<u8>, start: usize, len: usize) -> usize
    requires within { start + len ≤ 131136 }
    requires size { length buf.old.items ≡ 131136 }
    requires free { len ≤ 65600 }
    ensures held { take len (drop result buf.new.items) ≡ take len (drop start buf.old.items) }
    ensures size { length buf.new.items ≡ 131136 }
    ensures free { result + len + 65536 ≤ 131136 }
{
    if start + len <= BUFFER_BYTES - BLOCK_BYTES {
        return start;
    }
    buf.copy_within(start..start + len, 0);
    0
}

// Reads into the buffer from `at` on.
fn read_behind<R: Source>(buf: &mut [u8], at: usize, input: &mut Counted<R>) -> Option<usize>
    requires free { at + 65536 ≤ length buf.old }
    requires few_failed { input.old.failures < 2 ^ 63 }
    ensures front { take at buf.new ≡ take at buf.old }
    ensures bound { MatchOption result (Keeps (R.remaining input.old.inner) (R.remaining input.new.inner))
        (λ n. (at + n ≤ length buf.new) × Consumes (R.remaining input.old.inner) (R.remaining input.new.inner) (take n (drop at buf.new))
        × (n ≡ 0 → IsAtEnd (R.remaining input.new.inner))) }
    ensures counted { MatchOption result (input.new.failures ≡ input.old.failures + 1) (λ _. input.new.failures ≡ input.old.failures) }
    ensures made { CountsReads (for_a_block R.reads) input.old.inner input.old.calls input.old.failures input.new.inner
        input.new.calls input.new.failures }
    ensures calls { MatchOption result (input.old.calls ≤ input.new.calls) (λ _. input.new.calls ≡ input.old.calls + 1) }
{
    input.read(&mut buf[at..])
}

// Where the first LF is. None of the first `from` bytes is one.
pub(crate) fn find_end(bytes: &[u8], from: usize) -> Option<usize>
    requires within { from ≤ length bytes.now }
    requires before { IsLine (take from bytes.now) }
    ensures { MatchOption result (IsLine bytes.now) (λ at. (at < length bytes.now) × IsLine (take at bytes.now)
        × (bytes.now ≡ take at bytes.now ++ 10 ∷ drop (at + 1) bytes.now)) }
{
    match memchr(b'\n', &bytes[from..]) {
        None => None,
        Some(at) => Some(from + at),
    }
}

/// Reads until the bytes held have a whole line, or the input ends. `None` where a read failed.
#[tactic(auto, using(crate::proofs::Making::reads_none, crate::proofs::Making::reads_more))]
pub(crate) fn next_line<R: Source>(
    limit: usize,
    window: &mut Window,
    input: &mut Counted<R>,
) -> Option<Next>
    requires fits { limit ≤ 65600 }
    requires few_failed { input.old.failures < 2 ^ 63 }
    ensures cuts { (got : List ℕ) × Consumes (R.remaining input.old.inner) (R.remaining input.new.inner) got
        × Cuts limit (window.old ++ got) result window.new }
    ensures ends { EndsAtLast result (R.remaining input.new.inner) }
    ensures counted { MatchOption result (input.new.failures ≡ input.old.failures + 1) (λ _. input.new.failures ≡ input.old.failures) }
    ensures made { CountsReads (for_a_block R.reads) input.old.inner input.old.calls input.old.failures input.new.inner
        input.new.calls input.new.failures }
    ensures work { OnSome result (work input.new.calls window.new ≤ work input.old.calls window.old) }
    ensures long { result ≡ Some Next.Long → work input.new.calls window.new < work input.old.calls window.old }
{
    let mut seen = 0;
    'lines: loop {
        if let Some(at) = find_end(window.bytes(), seen) {
            if at <= limit {
                return Some(Next::Line(at));
            }
            window.advance(at + 1);
            return Some(Next::Long);
        }
        seen = window.len();
        if seen > limit {
            window.clear();
            return skip_line(window, input);
        }
        let got = window.fill(input)?;
        if got == 0 {
            return Some(Next::Last(seen));
        }
    }
}

// Skips the rest of a line that was too long, with its LF, and keeps none of it.
#[tactic(auto, using(crate::proofs::Making::reads_none, crate::proofs::Making::reads_more))]
fn skip_line<R: Source>(window: &mut Window, input: &mut Counted<R>) -> Option<Next>
    requires empty { window.old ≡ [] }
    requires few_failed { input.old.failures < 2 ^ 63 }
    ensures skips { (got : List ℕ) × Consumes (R.remaining input.old.inner) (R.remaining input.new.inner) got
        × Skips got result window.new }
    ensures ends { EndsAtLast result (R.remaining input.new.inner) }
    ensures counted { MatchOption result (input.new.failures ≡ input.old.failures + 1) (λ _. input.new.failures ≡ input.old.failures) }
    ensures made { CountsReads (for_a_block R.reads) input.old.inner input.old.calls input.old.failures input.new.inner
        input.new.calls input.new.failures }
    ensures work { OnSome result (work input.new.calls window.new < work input.old.calls window.old) }
{
    'skipping: loop {
        let got = window.fill(input)?;
        if got == 0 {
            return Some(Next::LastLong);
        }
        if let Some(at) = find_end(window.bytes(), 0) {
            window.advance(at + 1);
            return Some(Next::Long);
        }
        window.clear();
    }
}
