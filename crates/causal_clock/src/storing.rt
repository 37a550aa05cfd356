//! The storing of one operation: its row, the entries of its clock, and its mark.
ghost use Rattle.std.specs.Prelude.{◌≡◌, ◌+◌, ◌*◌, ◌<◌, ◌≤◌, ◌++◌, [], ◌∷◌, length, vec_len, vec_capacity, true, false, if◌then◌else◌};
ghost use Rattle.opid.specs.Delivery.{count_of};
ghost use Rattle.causal_clock.specs.Stored.{is_marked};
ghost use Rattle.causal_clock.specs.Internal.Packed.{IsPacked, marks_of, row_at, logged, unmarked};

use crate::changed::Changed;
use crate::clock::Clock;
use crate::op::Op;
use crate::packed_kind::PackedKind;
use crate::row::Row;
use crate::told::{needs_mark, push_changes};
use opid::SITES;

/// No log is longer: its entries have places of 32 bits.
pub(crate) const MAX_ROWS: usize = 67_108_864;

// Each operation of a site that has a number of this multiple keeps its whole clock as entries.
const WHOLE: u32 = 64;

/// Each operation of a site that has a number of this multiple has a mark, where it needs one.
pub(crate) const MARK: u32 = 8;

/// So many entries of a mark each of these operations has for its part.
pub(crate) const PART: usize = SITES / MARK as usize;

// Keeps the counts, those of 0 apart, as the mark of an operation that has one, and tells where it begins, or else the place that is
// given; and how many they are.
fn push_mark(marks: &mut Vec<Changed>, marked: bool, before: &Clock, last: u32) -> (u32, u8)
    requires reserved { marked ≡ true → vec_len marks.old + 32 ≤ vec_capacity marks.old }
    requires few { vec_len marks.old ≤ PART * MAX_ROWS }
    ensures items { marks.new.items ≡ marks.old.items ++ marks_of marked before.now }
    ensures place { result.0 ≡ (if marked then length marks.old.items else last) }
    ensures count { result.1 ≡ length (marks_of marked before.now) }
    ensures capacity { vec_capacity marks.old ≤ vec_capacity marks.new }
{
    if !marked {
        return (last, 0);
    }
    let place = marks.len() as u32;
    (place, push_changes(marks, false, &[0; SITES], before))
}

// How many operations of its site a site's operation of this number has to go back to one that is to have a mark, or is its first.
fn back_of(rows: &[Row], marked: bool, number: u32, last: u32) -> u8
    requires { marked ≡ false → 1 < number → (last < length rows.now) × ((row_at rows.now last).back < 8) }
    ensures marked { marked ≡ true → result ≡ 0 }
    ensures first { number ≤ 1 → result ≡ 0 }
    ensures next { marked ≡ false → 1 < number → result ≡ (row_at rows.now last).back + 1 }
{
    if marked {
        return 0;
    }
    if number <= 1 {
        return 0;
    }
    rows[last as usize].back + 1
}

/// Adds an operation for which memory is reserved.
pub(crate) fn append(
    rows: &mut Vec<Row>,
    entries: &mut Vec<Changed>,
    marks: &mut Vec<Changed>,
    clocks: &mut [Clock; SITES],
    lasts: &mut [u32; SITES],
    numbers: &mut [u32; SITES],
    op: &Op,
)
    requires packed { IsPacked entries.old.items marks.old.items rows.old.items (logged entries.old.items rows.old.items) clocks.old
        lasts.old numbers.old }
    requires rows { vec_len rows.old < vec_capacity rows.old }
    requires entries { vec_len entries.old + 32 ≤ vec_capacity entries.old }
    requires marks { vec_len marks.old + 4 * (unmarked numbers.old + 1) ≤ vec_capacity marks.old }
    requires few { vec_len rows.old < MAX_ROWS }
    ensures packed { IsPacked entries.new.items marks.new.items rows.new.items (logged entries.new.items rows.new.items) clocks.new
        lasts.new numbers.new }
    ensures grown { logged entries.new.items rows.new.items ≡ logged entries.old.items rows.old.items ++ op.now ∷ [] }
    ensures rows { vec_len rows.new ≡ vec_len rows.old + 1 }
    ensures entries { vec_len entries.new ≤ vec_len entries.old + 32 }
    ensures marks { vec_len marks.new + 4 * unmarked numbers.new ≤ vec_len marks.old + 4 * (unmarked numbers.old + 1) }
    ensures one_for_eight { length marks.new.items ≤ length marks.old.items
        + (if is_marked (count_of (logged entries.old.items rows.old.items) op.now.site) then 32 else 0) }
    ensures row_capacity { vec_capacity rows.old ≤ vec_capacity rows.new }
    ensures entry_capacity { vec_capacity entries.old ≤ vec_capacity entries.new }
    ensures mark_capacity { vec_capacity marks.old ≤ vec_capacity marks.new }
{
    let site = op.site();
    let place = usize::from(site.number());
    let clock = op.known();
    let number = numbers[place] + 1;
    let whole = number % WHOLE == 0;
    let marked = number % MARK == 0;
    let from = entries.len() as u32;
    let before = &clocks[place];
    let count = push_changes(entries, whole, before.counts(), clock);
    let last = lasts[place];
    let back = back_of(rows.as_slice(), marked, number, last);
    let needs = needs_mark(marked, whole, before.counts(), clock.counts());
    let (prev, mark) = push_mark(marks, needs, before, last);
    lasts[place] = rows.len() as u32;
    numbers[place] = number;
    clocks[place] = *clock;
    rows.push_reserved(Row {
        kind: PackedKind::new(op.kind()),
        from,
        prev,
        site,
        back,
        count,
        mark,
    });
}
