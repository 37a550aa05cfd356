//! A log of operations that keeps of each clock the entries that changed.
ghost use Rattle.std.specs.Prelude.{◌≡◌, ◌==◌, ◌+◌, ◌-◌, ◌*◌, ◌<◌, ◌≤◌, ◌++◌, [], ◌∷◌, ℕ, Some, max, length, drop};
ghost use Rattle.std.specs.Prelude.{slice_get, OnOk, OnErr, IfErr, vec_len, vec_capacity, if◌then◌else◌};
ghost use Rattle.opid.specs.declared.refusal.Refusal.TheVariants.{Memory};
ghost use Rattle.opid.specs.Delivery.{clock_of, count_of};
ghost use Rattle.causal_clock.specs.Stored.{entries_of, is_marked, stored};
ghost use Rattle.causal_clock.specs.Internal.Packed.{AreReserved, AreRows, IsPacked, changes_of, fill, mark_of, operation_at};
ghost use Rattle.causal_clock.specs.Internal.Packed.{row_at, logged, unmarked};

use crate::changed::Changed;
use crate::clock::Clock;
use crate::op::Op;
use crate::reads::Reads;
use crate::replay::Replay;
use crate::row::{Row, read};
use crate::storing::{MARK, MAX_ROWS, PART, append};
use opid::{Refusal, SITES};
use std::alloc::Global;
use std::marker::Model;
use std::sync::ledger::Ledger;

// All sites have made at most so many operations since those that have their last marks.
const SINCE: usize = SITES * (MARK as usize - 1);

/// A log of operations. Of each operation it keeps the entries of its clock that differ from those of its site's
/// operation before, and of each 64th operation of a site all 32. Beside them each 8th operation of a site has a mark,
/// the counts of its site's operation before it, those of 0 apart, so that what is asked for is near one; but where its
/// own entries make its clock it needs none.
#[derive(Drop)]
pub struct OpLog {
    rows: Vec<Row>,
    entries: Vec<Changed>,
    marks: Vec<Changed>,
    clocks: [Clock; SITES],
    lasts: [u32; SITES],
    numbers: [u32; SITES],
    reserved: usize,
}

impl Model for OpLog {
    ghost use Rattle.std.specs.Prelude.{length, vec_len, vec_capacity};
    ghost use Rattle.causal_clock.specs.Logged.{Logged};

    ghost Value = { Logged };

    ghost use Rattle.causal_clock.specs.Internal.Packed.{IsPacked, AreReserved, logged, unmarked};

    ghost view = { λ l. record {
      ops = logged l.entries.items l.rows.items;
      reserved = l.reserved;
      entries = length l.entries.items;
      marks = length l.marks.items;
    } };

    ghost invariant = { λ l. IsPacked l.entries.items l.marks.items l.rows.items (logged l.entries.items l.rows.items) l.clocks l.lasts
        l.numbers
        × AreReserved (vec_len l.rows) (vec_capacity l.rows) (vec_len l.entries) (vec_capacity l.entries) (vec_len l.marks)
        (vec_capacity l.marks) (unmarked l.numbers) l.reserved };
}

impl OpLog {
    /// The log of no operations. Constant time: it sets 32 counts for each of 32 sites. Takes no memory.
    pub fn new(alloc: Global) -> OpLog
        ensures { result ≡ record { ops = []; reserved = 0; entries = 0; marks = 0 } }
    {
        OpLog {
            rows: Vec::new(alloc),
            entries: Vec::new(alloc),
            marks: Vec::new(alloc),
            clocks: [Clock::zero(); SITES],
            lasts: [0; SITES],
            numbers: [0; SITES],
            reserved: 0,
        }
    }

    /// How many operations there are. Constant time.
    pub fn len(&self) -> usize
        ensures { result ≡ length self.now.ops }
    {
        self.rows.len()
    }

    /// How many entries are stored. Constant time.
    pub fn stored(&self) -> usize
        ensures value { result ≡ length (stored self.now.ops) }
        ensures kept { result ≡ self.now.entries }
    {
        self.entries.len()
    }

    /// The operation at the place. Takes no memory, and reads what is kept of at most 8 operations: itself, and those of
    /// its site before it back to its 8th, 16th .. one, or to its first. It sets 32 counts, and puts in the entries of that one's mark
    /// and of each of them.
    pub fn get<L: Ledger>(&self, i: usize, steps: &mut Reads<L>) -> Op
        requires { i < length self.now.ops }
        ensures value { slice_get self.now.ops i ≡ Some result }
        ensures cost { steps.new ≤ steps.old + 8 }
        ensures counted { steps.old + 1 ≤ steps.new }
    {
        let rows = self.rows.as_slice();
        let entries = self.entries.as_slice();
        let (row, changes) = read(rows, entries, i, steps);
        let before = counts_before(rows, entries, self.marks.as_slice(), &row, steps);
        let counts = filled(before, changes);
        Op::told(row.site, Clock::of_counts(counts), row.kind.kind())
    }

    /// The operations from a place on, in order. Constant time; takes no memory. Of the operations that are then asked for, the
    /// first one of each site takes the steps of `get`, each other one a copy of 32 counts and of the entries stored of it.
    pub fn replay_from(&self, place: usize) -> Replay<'_>
        requires { place ≤ length self.now.ops }
        ensures passed { result.passed ≡ [] }
        ensures left { result.left ≡ drop place self.now.ops }
    {
        Replay::new(
            self.rows.as_slice(),
            self.entries.as_slice(),
            self.marks.as_slice(),
            place,
        )
    }

    /// Reserves memory for the next `n` operations, so that they aren't refused with `Memory`: for each 20 bytes,
    /// 128 for the 32 entries that it may have, and 16 for its part of a mark, which each 8th operation of a site may have, with as many
    /// entries; and 3,584 for the marks that are next in turn. Constant time; nothing grows where so many are reserved already.
    /// Refused with `Memory`, only where fewer are: for want of it, or above 67,108,864 operations.
    pub fn reserve(&mut self, n: usize) -> Result<(), Refusal>
        ensures ok { OnOk result (self.new ≡ record self.old { reserved = max self.old.reserved n }) }
        ensures err { OnErr result (self.new ≡ self.old) }
        ensures memory { IfErr result (λ e. (e ≡ Memory) × (self.old.reserved < n)) }
    {
        if self.reserved < n {
            reserve_each(&mut self.rows, &mut self.entries, &mut self.marks, n)?;
            self.reserved = n;
        }
        Ok(())
    }

    /// Adds an operation. Compares the counts of all sites at once, and takes a step for each entry that is stored, and for each 8th
    /// operation of a site one for each of its mark. Where nothing is reserved it asks for memory as `reserve` does, the first time
    /// 3,584 bytes for marks among it. Refused with `Memory`, only there, also above 67,108,864 operations.
    pub fn push(&mut self, op: Op) -> Result<(), Refusal>
        ensures ok { OnOk result ((self.new.ops ≡ self.old.ops ++ op ∷ []) × (self.new.reserved ≡ self.old.reserved - 1)) }

        // The entries that are stored grow by those that the operation tells, and what is kept beside them by at most one whole clock
        // for eight operations of a site.
        ensures stored { OnOk result (length (stored self.new.ops) ≡ length (stored self.old.ops) + length (entries_of self.old.ops op)) }
        ensures entries { OnOk result (self.new.entries ≡ self.old.entries + length (entries_of self.old.ops op)) }
        ensures marks { OnOk result (self.new.marks ≤ self.old.marks + (if is_marked (count_of self.old.ops op.site) then 32 else 0)) }
        ensures err { OnErr result (self.new ≡ self.old) }
        ensures memory { IfErr result (λ e. (e ≡ Memory) × (self.old.reserved ≡ 0)) }
    {
        self.push_copy(&op)
    }

    /// Adds an operation as `push` does, where the caller keeps it: of its clock 32 counts are copied, once; with each 8th operation
    /// of a site the counts of the one before are kept once more, those of 0 apart. Takes the steps of `push`. Refused with `Memory`,
    /// only where nothing is reserved, also above 67,108,864 operations.
    pub fn push_copy(&mut self, op: &Op) -> Result<(), Refusal>
        ensures ok { OnOk result ((self.new.ops ≡ self.old.ops ++ op.now ∷ []) × (self.new.reserved ≡ self.old.reserved - 1)) }

        // What is kept of clocks grows as with `push`.
        ensures stored { OnOk result
            (length (stored self.new.ops) ≡ length (stored self.old.ops) + length (entries_of self.old.ops op.now)) }
        ensures entries { OnOk result (self.new.entries ≡ self.old.entries + length (entries_of self.old.ops op.now)) }
        ensures marks { OnOk result
            (self.new.marks ≤ self.old.marks + (if is_marked (count_of self.old.ops op.now.site) then 32 else 0)) }
        ensures err { OnErr result (self.new ≡ self.old) }
        ensures memory { IfErr result (λ e. (e ≡ Memory) × (self.old.reserved ≡ 0)) }
    {
        if self.reserved == 0 {
            reserve_each(&mut self.rows, &mut self.entries, &mut self.marks, 1)?;
        }
        append(
            &mut self.rows,
            &mut self.entries,
            &mut self.marks,
            &mut self.clocks,
            &mut self.lasts,
            &mut self.numbers,
            op,
        );
        self.reserved = self.reserved.saturating_sub(1);
        Ok(())
    }
}

// Reserves memory for `n` more operations. So that no site's operations are counted for it, its marks' part is for as many more as
// all sites can have made since their last marks.
fn reserve_each(
    rows: &mut Vec<Row>,
    entries: &mut Vec<Changed>,
    marks: &mut Vec<Changed>,
    n: usize,
) -> Result<(), Refusal>
    ensures rows { rows.new.items ≡ rows.old.items }
    ensures entries { entries.new.items ≡ entries.old.items }
    ensures marks { marks.new.items ≡ marks.old.items }
    ensures kept { (since reserved : ℕ)
        → AreReserved (vec_len rows.old) (vec_capacity rows.old) (vec_len entries.old) (vec_capacity entries.old)
        (vec_len marks.old) (vec_capacity marks.old) since reserved
        → AreReserved (vec_len rows.new) (vec_capacity rows.new) (vec_len entries.new) (vec_capacity entries.new)
        (vec_len marks.new) (vec_capacity marks.new) since reserved }
    ensures ok { OnOk result ((since : ℕ) → since ≤ SINCE
        → AreReserved (vec_len rows.new) (vec_capacity rows.new) (vec_len entries.new) (vec_capacity entries.new)
        (vec_len marks.new) (vec_capacity marks.new) since n) }
    ensures memory { IfErr result (λ e. e ≡ Memory) }
{
    if rows.len() > MAX_ROWS || n > MAX_ROWS - rows.len() {
        return Err(Refusal::Memory);
    }
    rows.reserve(n)?;
    entries.reserve(SITES * n)?;
    marks.reserve(PART * (SINCE + n))?;
    Ok(())
}

/// The counts into which a row's entries are put: those of its mark, zeros, or those of the clock of its site's operation before.
/// Reads as many operations as the row goes back.
pub(crate) fn counts_before<L: Ledger>(
    rows: &[Row],
    entries: &[Changed],
    marks: &[Changed],
    row: &Row,
    steps: &mut Reads<L>,
) -> [u32; SITES]
    requires rows { AreRows entries.now marks.now rows.now (logged entries.now rows.now) }
    requires row { (k : ℕ) × (k < length rows.now) × (row_at rows.now k ≡ row.now) }
    ensures counts { (k : ℕ) → k < length rows.now → row_at rows.now k ≡ row.now
        → fill result (changes_of entries.now row.now) ≡ (operation_at (logged entries.now rows.now) k).clock }
    ensures cost { steps.new ≡ steps.old + row.now.back }
{
    let mut counts = [0; SITES];
    put_before(rows, entries, marks, row, &mut counts, steps);
    counts
}

// Puts these counts over zeros. In place, since a row may go back over 7 others.
fn put_before<L: Ledger>(
    rows: &[Row],
    entries: &[Changed],
    marks: &[Changed],
    row: &Row,
    counts: &mut [u32; SITES],
    steps: &mut Reads<L>,
)
    requires zeros { counts.old ≡ clock_of [] }
    requires rows { AreRows entries.now marks.now rows.now (logged entries.now rows.now) }
    requires row { (k : ℕ) × (k < length rows.now) × (row_at rows.now k ≡ row.now) }
    ensures counts { (k : ℕ) → k < length rows.now → row_at rows.now k ≡ row.now
        → fill counts.new (changes_of entries.now row.now) ≡ (operation_at (logged entries.now rows.now) k).clock }
    ensures cost { steps.new ≡ steps.old + row.now.back }
{
    if row.back == 0 {
        put_in(counts, mark_of(marks, row));
        return;
    }
    let (last, changes) = read(rows, entries, row.prev as usize, steps);
    put_before(rows, entries, marks, &last, counts, steps);
    put_in(counts, changes);
}

// The entries of a row's mark: none, where it has no mark.
fn mark_of<'a>(marks: &'a [Changed], row: &Row) -> &'a [Changed]
    requires { 0 < row.now.mark → row.now.prev + row.now.mark ≤ length marks.now }
    ensures { result.now ≡ mark_of marks.now row.now }
{
    if row.mark == 0 {
        return &marks[..0];
    }
    let from = row.prev as usize;
    &marks[from..from + usize::from(row.mark)]
}

// Puts in each of the entries.
fn put_in(counts: &mut [u32; SITES], entries: &[Changed])
    ensures { counts.new ≡ fill counts.old entries.now }
{
    for change in entries {
        let site = change.site();
        counts[usize::from(site.number())] = change.count();
    }
}

/// The counts with each of the entries put in.
pub(crate) fn filled(counts: [u32; SITES], entries: &[Changed]) -> [u32; SITES]
    ensures { result ≡ fill counts entries.now }
{
    let mut counts = counts;
    put_in(&mut counts, entries);
    counts
}
