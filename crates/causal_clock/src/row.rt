//! What a log keeps of one operation, beside the entries of its clock.
ghost use Rattle.std.specs.Prelude.{◌≡◌, ◌+◌, ◌<◌, ◌≤◌, length};
ghost use Rattle.causal_clock.specs.Internal.Packed.{changes_of, row_at};

use crate::changed::Changed;
use crate::packed_kind::PackedKind;
use crate::reads::Reads;
use opid::Site;
use std::sync::ledger::Ledger;

/// An operation's site and kind, where its entries are, and where its mark or its site's operation before it is.
#[derive(Clone, Copy)]
pub(crate) struct Row {
    pub(crate) kind: PackedKind,
    /// The first of its entries, in the vector of entries.
    pub(crate) from: u32,
    /// The first entry of its mark, in the vector of marks, or else the place of its site's operation before it, where there is one.
    pub(crate) prev: u32,
    pub(crate) site: Site,
    /// How many operations of its site one has to go back to one whose entries make its clock, over its mark or over zeros.
    pub(crate) back: u8,
    /// How many entries it has.
    pub(crate) count: u8,
    /// How many entries its mark has, where it has one: the counts, those of 0 apart, of its site's operation before it.
    pub(crate) mark: u8,
}

const _: () = prove!(size_of::<Row>() == 20);

/// The row at the place, and its entries. The only call that reads rows or entries for an operation that is asked for.
pub(crate) fn read<'a, L: Ledger>(
    rows: &[Row],
    entries: &'a [Changed],
    at: usize,
    steps: &mut Reads<L>,
) -> (Row, &'a [Changed])
    requires within { at < length rows.now }
    requires entries { (row_at rows.now at).from + (row_at rows.now at).count ≤ length entries.now }
    ensures row { result.0 ≡ row_at rows.now at }
    ensures entries { result.1.now ≡ changes_of entries.now (row_at rows.now at) }
    ensures step { steps.new ≡ steps.old + 1 }
{
    steps.tick();
    let row = rows[at];
    let from = row.from as usize;
    (row, &entries[from..from + usize::from(row.count)])
}
