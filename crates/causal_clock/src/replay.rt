//! The operations of a log in order, from a place on.
ghost use Rattle.std.specs.Prelude.{◌≡◌, ◌+◌, ◌<◌, ◌≤◌, ◌++◌, ◌∷◌, [], ℕ, List, Some, None, length, drop, get_or, slice_get, slice_set};
ghost use Rattle.opid.specs.Delivery.{count_of};
ghost use Rattle.causal_clock.specs.Internal.Packed.{AreRows, changes_of, fill, logged, operation_at, row_at};
ghost use Rattle.causal_clock.specs.Internal.Replayed.{AreSeen};

use crate::changed::Changed;
use crate::clock::Clock;
use crate::op::Op;
use crate::op_log::{counts_before, filled};
use crate::reads::Reads;
use crate::row::{Row, read};
use opid::SITES;
use std::marker::{Brand, Model};
use std::sync::ledger::{Blank, Ledger};

/// The operations of a log that are left, in order. The first one of each site takes the steps of `OpLog::get`; each
/// other one copies a clock, 32 counts, and puts in the entries that are stored of it.
#[derive(Drop)]
pub struct Replay<'a> {
    rows: &'a [Row],
    entries: &'a [Changed],
    marks: &'a [Changed],

    // Where the walk began.
    start: usize,

    // Where it is.
    place: usize,

    // The clock of each site's last operation that was passed.
    seen: [Option<[u32; SITES]>; SITES],
}

impl<'a> Model for Replay<'a> {
    ghost use Rattle.std.specs.Prelude.{drop};
    ghost use Rattle.causal_clock.specs.Logged.{Walk};

    ghost Value = { Walk };

    ghost use Rattle.causal_clock.specs.Internal.Packed.{logged};
    ghost use Rattle.causal_clock.specs.Internal.Replayed.{IsReplay, between};

    ghost view = { λ r. record {
      passed = between r.start r.place (logged r.entries.now r.rows.now);
      left = drop r.place (logged r.entries.now r.rows.now);
    } };

    ghost invariant = { λ r. IsReplay r.seen r.entries.now r.marks.now r.rows.now r.start r.place };
}

impl<'a> Replay<'a> {
    /// These rows' operations from a place on.
    pub(crate) fn new(
        rows: &'a [Row],
        entries: &'a [Changed],
        marks: &'a [Changed],
        place: usize,
    ) -> Replay<'a>
        requires rows { AreRows entries.now marks.now rows.now (logged entries.now rows.now) }
        requires place { place ≤ length rows.now }
        ensures passed { result.passed ≡ [] }
        ensures left { result.left ≡ drop place (logged entries.now rows.now) }
    {
        Replay {
            rows,
            entries,
            marks,
            start: place,
            place,
            seen: [None; SITES],
        }
    }

    /// The next operation, where one is left, as `read_next` gives it. A loop over places that are known calls it: a `for`
    /// over the operations doesn't tell their places. It costs what `read_next` costs.
    pub fn next_op(&mut self) -> Op
        requires { 0 < length self.old.left }
        ensures value { self.old.left ≡ result ∷ self.new.left }
        ensures passed { self.new.passed ≡ self.old.passed ++ result ∷ [] }
    {
        next_over::<Brand>(self, Blank::new(1))
    }

    /// The next operation, where one is left, and counts the operations that are read. Takes no memory, and reads what is kept
    /// of that operation alone where one of its site was passed, else that of at most 8 operations. It copies 32 counts, and puts
    /// in the entries of each that is read.
    pub fn read_next<L: Ledger>(&mut self, steps: &mut Reads<L>) -> Op
        requires { 0 < length self.old.left }
        ensures value { self.old.left ≡ result ∷ self.new.left }
        ensures passed { self.new.passed ≡ self.old.passed ++ result ∷ [] }
        ensures cost { steps.new ≤ steps.old + 8 }
        ensures counted { steps.old + 1 ≤ steps.new }
        ensures next { 0 < count_of self.old.passed result.site → steps.new ≡ steps.old + 1 }
    {
        let at = self.place;
        self.place = at + 1;
        op_after(
            &mut self.seen,
            self.rows,
            self.entries,
            self.marks,
            at,
            steps,
        )
    }
}

impl<'a> Iterator for Replay<'a> {
    type Item = Op;

    ghost use Rattle.std.specs.Iterator.{YieldsFirst, item_count};

    ghost next_gives = { YieldsFirst (λ s. s.left) };

    ghost remaining = { item_count (λ s. s.left) };

    /// The next operation, if one is left. It costs what `read_next` costs.
    fn next(&mut self) -> Option<Op> {
        if self.place >= self.rows.len() {
            return None;
        }
        Some(self.next_op())
    }
}

// The next operation. Nobody counts the steps.
fn next_over<L: Ledger>(rest: &mut Replay<'_>, blank: Blank) -> Op
    requires left { 0 < length rest.old.left }
    requires name { blank.name ≡ L.name }
    requires parts { blank.parts ≡ L.parts }
    requires some { 0 < L.parts }
    ensures value { rest.old.left ≡ result ∷ rest.new.left }
    ensures passed { rest.new.passed ≡ rest.old.passed ++ result ∷ [] }
{
    rest.read_next(&mut Reads::<L>::new(blank))
}

// The operation at the place, which becomes its site's last.
fn op_after<L: Ledger>(
    seen: &mut [Option<[u32; SITES]>; SITES],
    rows: &[Row],
    entries: &[Changed],
    marks: &[Changed],
    at: usize,
    steps: &mut Reads<L>,
) -> Op
    requires within { at < length rows.now }
    requires rows { AreRows entries.now marks.now rows.now (logged entries.now rows.now) }
    requires seen { AreSeen seen.old (logged entries.now rows.now) at }
    ensures op { slice_get (logged entries.now rows.now) at ≡ Some result }
    ensures seen { AreSeen seen.new (logged entries.now rows.now) (at + 1) }
    ensures kept { (counts : List ℕ) × (seen.new ≡ slice_set seen.old result.site (Some counts)) }
    ensures site { result.site < length seen.old }
    ensures cost { steps.new ≤ steps.old + 8 }
    ensures counted { steps.old + 1 ≤ steps.new }
    ensures next { (counts : List ℕ) → get_or seen.old result.site None ≡ Some counts → steps.new ≡ steps.old + 1 }
{
    let (row, changes) = read(rows, entries, at, steps);
    let site = usize::from(row.site.number());
    let before = counts_after(seen[site], rows, entries, marks, &row, steps);
    let counts = filled(before, changes);
    seen[site] = Some(counts);
    Op::told(row.site, Clock::of_counts(counts), row.kind.kind())
}

// The counts into which a row's entries are put, where those of its site's last operation may be kept.
fn counts_after<L: Ledger>(
    kept: Option<[u32; SITES]>,
    rows: &[Row],
    entries: &[Changed],
    marks: &[Changed],
    row: &Row,
    steps: &mut Reads<L>,
) -> [u32; SITES]
    requires rows { AreRows entries.now marks.now rows.now (logged entries.now rows.now) }
    requires row { (k : ℕ) × (k < length rows.now) × (row_at rows.now k ≡ row.now) }
    requires kept { (counts : List ℕ) → kept ≡ Some counts → 0 < row.now.back
        → counts ≡ (operation_at (logged entries.now rows.now) row.now.prev).clock }
    ensures counts { (k : ℕ) → k < length rows.now → row_at rows.now k ≡ row.now
        → fill result (changes_of entries.now row.now) ≡ (operation_at (logged entries.now rows.now) k).clock }
    ensures cost { steps.new ≤ steps.old + row.now.back }
    ensures rises { steps.old ≤ steps.new }
    ensures next { (counts : List ℕ) → kept ≡ Some counts → steps.new ≡ steps.old }
{
    match kept {
        Some(counts) if row.back > 0 => counts,
        _ => counts_before(rows, entries, marks, row, steps),
    }
}
