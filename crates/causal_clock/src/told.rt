//! The entries of a clock that a log stores of an operation, and whether they make it by themselves.
ghost use Rattle.std.specs.Prelude.{◌≡◌, ◌+◌, ◌≤◌, ◌++◌, [], length, vec_len, vec_capacity, true, false};
ghost use Rattle.opid.specs.Delivery.{clock_of};
ghost use Rattle.causal_clock.specs.Stored.{changes};
ghost use Rattle.causal_clock.specs.Internal.Told.{AreTold};
ghost use Rattle.causal_clock.specs.Internal.Packed.{fill};

use crate::changed::Changed;
use crate::clock::{Clock, differing};
use crate::packed_kind::site_of;
use opid::SITES;

// Which entries are stored, a bit for each site from the lowest on: all are, or those that differ from the ones before.
fn told_sites(whole: bool, before: &[u32; SITES], counts: &[u32; SITES]) -> u64
    ensures { AreTold whole before.now counts.now result }
{
    if whole {
        return 0xffff_ffff;
    }
    differing(before, counts)
}

/// Adds the entries of the clock that differ from those before, or all, and tells how many. Takes a step for each entry that is added.
pub(crate) fn push_changes(
    entries: &mut Vec<Changed>,
    whole: bool,
    before: &[u32; SITES],
    clock: &Clock,
) -> u8
    requires reserved { vec_len entries.old + 32 ≤ vec_capacity entries.old }
    ensures items { entries.new.items ≡ entries.old.items ++ changes whole before.now clock.now 32 }
    ensures count { result ≡ length (changes whole before.now clock.now 32) }
    ensures few { result ≤ 32 }
    ensures capacity { vec_capacity entries.old ≤ vec_capacity entries.new }
{
    let counts = clock.counts();
    let from = entries.len();
    let mut left = told_sites(whole, before, counts);
    'told: while left != 0 {
        let number = left.trailing_zeros() as usize;
        entries.push_reserved(Changed::new(site_of(number as u8), counts[number]));
        left &= !(1 << number);
    }
    (entries.len() - from) as u8
}

/// Whether an operation that is to have a mark needs one: not where its own entries make its clock, as each other count is 0.
pub(crate) fn needs_mark(
    marked: bool,
    whole: bool,
    before: &[u32; SITES],
    counts: &[u32; SITES],
) -> bool
    ensures marked { result ≡ true → marked ≡ true }
    ensures alone { marked ≡ true → result ≡ false → fill (clock_of []) (changes whole before.now counts.now 32) ≡ counts.now }
{
    if !marked {
        return false;
    }
    let counted = differing(&[0; SITES], counts);
    counted & told_sites(whole, before, counts) != counted
}
