//! Deletions from a place of a version on.
ghost use Rattle.std.specs.Prelude.{◌≡◌, ◌≤◌, ◌+◌, ◌-◌, ◌++◌, ◌⊎◌, Some, None, true, length, sum, map};
ghost use Rattle.std.specs.Prelude.{take, drop, IfOk, IfErr, OnOk, vec_len};
ghost use Rattle.opid.specs.declared.refusal.Refusal.TheVariants.{Memory};
ghost use Rattle.opid.specs.Reading.{visible_in_at};
ghost use Rattle.opid.specs.Lawful.{IsLawful};
ghost use Rattle.opid.specs.Asked.{deletion_run, each_once, asked_deletions, asked_deletions_in};
ghost use Rattle.opid.specs.Places.{deletion_refusal, deletion_refusal_in, element_count};

use crate::known::known_behind;
use crate::places::{is_inside, len_at, stamp_at};
use causal_clock::{Clock, Op};
use opid::{OpKind, Refusal, Site, is_bad_count};
use std::alloc::{AllocError, Global};
use versions::{Doc, MAX_OPERATIONS};

/// The operations by which the site deletes so many characters from the place of the version on: one deletion for
/// each element that stands there, in their order, also of those that were deleted since. They stand behind the
/// newest version, however old the version is that was named. A place counts characters (Unicode scalar values).
/// Takes the steps of `Doc::len_at`, and for each deletion those of `Doc::element_at` and a copy of 32 counts, with memory
/// for its operation, some 160 bytes.
///
/// Refused, in this order: `BadVersion` above the newest version, `BadCount` where the count is 0 or above 64,
/// `BadPlace` where the place plus the count is above the version's length, `Full` where the log would exceed
/// 131,072 operations, `Memory`. (Roh and others 2011.)
pub fn delete_ops(
    alloc: Global,
    doc: &Doc,
    site: Site,
    version: u32,
    place: u32,
    count: u32,
) -> Result<Vec<Op>, Refusal>
    ensures ok { IfOk result (λ ops. ops.items ≡ asked_deletions doc.now.log site version place count) }
    ensures accepted { OnOk result (deletion_refusal doc.now.log version place count ≡ None) }
    ensures counted { IfOk result (λ ops. vec_len ops ≡ count) }
    ensures fits { IfOk result (λ ops. length doc.now.log + vec_len ops ≤ MAX_OPERATIONS) }
    ensures lawful { IfOk result (λ ops. IsLawful (doc.now.log ++ ops.items)) }
    ensures cause { IfErr result (λ e. (deletion_refusal doc.now.log version place count ≡ Some e)
        ⊎ ((deletion_refusal doc.now.log version place count ≡ None) × (e ≡ Memory))) }
{
    deletions_at(alloc, doc, false, site, version, place, count)
}

/// The same where the place and the count are of UTF-16 units: one deletion for each element that has its units there. Takes
/// the steps of `Doc::unit_at` for either end, and at most three times for each unit, and a copy of 32 counts for each
/// deletion, with memory for each unit, some 160 bytes.
///
/// Refused as `delete_ops` is, and with `BadPlace` where either end is inside a pair.
pub fn delete_ops_units(
    alloc: Global,
    doc: &Doc,
    site: Site,
    version: u32,
    place: u32,
    count: u32,
) -> Result<Vec<Op>, Refusal>
    ensures ok { IfOk result (λ ops. ops.items ≡ asked_deletions_in true doc.now.log site version place count) }
    ensures accepted { OnOk result (deletion_refusal_in true doc.now.log version place count ≡ None) }
    ensures counted { IfOk result (λ ops. vec_len ops ≡ element_count true doc.now.log version place count) }
    ensures fits { IfOk result (λ ops. length doc.now.log + vec_len ops ≤ MAX_OPERATIONS) }
    ensures lawful { IfOk result (λ ops. IsLawful (doc.now.log ++ ops.items)) }
    ensures cause { IfErr result (λ e. (deletion_refusal_in true doc.now.log version place count ≡ Some e)
        ⊎ ((deletion_refusal_in true doc.now.log version place count ≡ None) × (e ≡ Memory))) }
{
    deletions_at(alloc, doc, true, site, version, place, count)
}

// The deletions that are asked for from the place of the version on, as places are counted.
fn deletions_at(
    alloc: Global,
    doc: &Doc,
    units: bool,
    site: Site,
    version: u32,
    place: u32,
    count: u32,
) -> Result<Vec<Op>, Refusal>
    ensures ok { IfOk result (λ ops. ops.items ≡ asked_deletions_in units doc.now.log site version place count) }
    ensures accepted { OnOk result (deletion_refusal_in units doc.now.log version place count ≡ None) }
    ensures counted { IfOk result (λ ops. vec_len ops ≡ element_count units doc.now.log version place count) }
    ensures fits { IfOk result (λ ops. length doc.now.log + vec_len ops ≤ MAX_OPERATIONS) }
    ensures lawful { IfOk result (λ ops. IsLawful (doc.now.log ++ ops.items)) }
    ensures cause { IfErr result (λ e. (deletion_refusal_in units doc.now.log version place count ≡ Some e)
        ⊎ ((deletion_refusal_in units doc.now.log version place count ≡ None) × (e ≡ Memory))) }
{
    prove!(site.number() < 32);
    if version > doc.version() {
        return Err(Refusal::BadVersion);
    }
    let count = count as usize;
    if is_bad_count(count) {
        return Err(Refusal::BadCount);
    }
    let first = place as usize;
    let end = first + count;
    if is_inside(doc, units, version, first)
        || is_inside(doc, units, version, end)
        || end > len_at(doc, units, version)
    {
        return Err(Refusal::BadPlace);
    }
    let elements = elements_in(doc, units, version, first, end);
    if elements > MAX_OPERATIONS - doc.version() as usize {
        return Err(Refusal::Full);
    }
    Ok(run(alloc, doc, units, site, doc.clock(), version, first, end)?)
}

// How many elements stand at the places from `first` to before `end` of the version, none of which ends is inside a pair.
fn elements_in(doc: &Doc, units: bool, version: u32, first: usize, end: usize) -> usize
    requires known { version ≤ length doc.now.log }
    requires places { first ≤ end }
    requires inside { end ≤ length (visible_in_at units doc.now.log version) }
    ensures { result ≡ length (each_once units (take (end - first) (drop first (visible_in_at units doc.now.log version)))) }
{
    let mut elements = 0;
    for place in first..end {
        if !is_inside(doc, units, version, place) {
            elements += 1;
        }
    }
    elements
}

// Deletions of a site, one for each of the elements at the places from `first` to before `end` of the version.
fn run(
    alloc: Global,
    doc: &Doc,
    units: bool,
    site: Site,
    clock: Clock,
    version: u32,
    first: usize,
    end: usize,
) -> Result<Vec<Op>, AllocError>
    requires known { version ≤ length doc.now.log }
    requires places { first ≤ end }
    requires inside { end ≤ length (visible_in_at units doc.now.log version) }
    requires few { sum clock + length (each_once units (take (end - first) (drop first (visible_in_at units doc.now.log version))))
        ≤ MAX_OPERATIONS }
    ensures { IfOk result (λ ops. ops.items ≡ deletion_run site clock
        (map (λ x. x.stamp) (each_once units (take (end - first) (drop first (visible_in_at units doc.now.log version)))))) }
{
    let mut ops = Vec::with_capacity(alloc, end - first)?;
    for place in first..end {
        if !is_inside(doc, units, version, place) {
            let Some(target) = stamp_at(doc, units, version, place) else {
                unreachable!();
            };
            let known = known_behind(&clock, ops.as_slice());
            let op = Op::next(site, known, OpKind::Del { target });
            ops.push(op)?;
        }
    }
    Ok(ops)
}
