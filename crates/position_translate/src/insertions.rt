//! Insertions at a place of a version.
ghost use Rattle.std.specs.Prelude.{◌≡◌, ◌≤◌, ◌+◌, ◌++◌, ◌⊎◌, Some, None, true, false, length};
ghost use Rattle.std.specs.Prelude.{sum, IfOk, IfErr, OnOk, MatchOption, vec_len};
ghost use Rattle.std.specs.Str.{chars};
ghost use Rattle.opid.specs.declared.refusal.Refusal.TheVariants.{Memory};
ghost use Rattle.opid.specs.Lawful.{IsLawful};
ghost use Rattle.opid.specs.Asked.{parent_in_at, insertion_run, asked_insertions, asked_insertions_in, IsPlaced, IsPlaced_in};
ghost use Rattle.opid.specs.Places.{is_bad_place, insertion_refusal, insertion_refusal_in};

use crate::known::known_behind;
use crate::places::{is_inside, len_at, stamp_at};
use causal_clock::{Clock, Op};
use opid::{OpKind, Refusal, Site, Stamp, count_characters, is_bad_count};
use std::alloc::{AllocError, Global};
use versions::{Doc, MAX_OPERATIONS};

/// The operations by which the site puts the text in at the place of the version: one insertion for each character,
/// the first behind the element before the place, each next one behind the one before it. They stand behind the
/// newest version, however old the version is that was named. A place counts characters (Unicode scalar values).
/// Takes the steps of `Doc::element_at` once, and for each character a step and a copy of 32 counts, with memory for
/// its operation, some 160 bytes. A text that is too long is counted to its end.
///
/// Refused, in this order: `BadVersion` above the newest version, `BadText` where the text has no character or more
/// than 64, `BadPlace` where the place is above the version's length, `Full` where the log would exceed 131,072
/// operations, `Memory`. (Roh and others 2011.)
pub fn insert_ops(
    alloc: Global,
    doc: &Doc,
    site: Site,
    version: u32,
    place: u32,
    text: &str,
) -> Result<Vec<Op>, Refusal>
    ensures ok { IfOk result (λ ops. ops.items ≡ asked_insertions doc.now.log site version place (chars text.now)) }
    ensures accepted { OnOk result (insertion_refusal doc.now.log version place (chars text.now) ≡ None) }
    ensures counted { IfOk result (λ ops. vec_len ops ≡ length (chars text.now)) }
    ensures fits { IfOk result (λ ops. length doc.now.log + vec_len ops ≤ MAX_OPERATIONS) }
    ensures lawful { IfOk result (λ ops. IsLawful (doc.now.log ++ ops.items)) }
    ensures placed { IfOk result (λ ops. IsPlaced doc.now.log version place ops.items) }
    ensures cause { IfErr result (λ e. (insertion_refusal doc.now.log version place (chars text.now) ≡ Some e)
        ⊎ ((insertion_refusal doc.now.log version place (chars text.now) ≡ None) × (e ≡ Memory))) }
{
    insertions_at(alloc, doc, false, site, version, place, text)
}

/// The same where the place counts UTF-16 units: the text is put in at that unit of the version. Takes the steps of
/// `Doc::unit_at` twice, and for each character what `insert_ops` takes for it.
///
/// Refused as `insert_ops` is, and with `BadPlace` where the place is inside a pair.
pub fn insert_ops_units(
    alloc: Global,
    doc: &Doc,
    site: Site,
    version: u32,
    place: u32,
    text: &str,
) -> Result<Vec<Op>, Refusal>
    ensures ok { IfOk result (λ ops. ops.items ≡ asked_insertions_in true doc.now.log site version place (chars text.now)) }
    ensures accepted { OnOk result (insertion_refusal_in true doc.now.log version place (chars text.now) ≡ None) }
    ensures counted { IfOk result (λ ops. vec_len ops ≡ length (chars text.now)) }
    ensures fits { IfOk result (λ ops. length doc.now.log + vec_len ops ≤ MAX_OPERATIONS) }
    ensures lawful { IfOk result (λ ops. IsLawful (doc.now.log ++ ops.items)) }
    ensures placed { IfOk result (λ ops. IsPlaced_in true doc.now.log version place ops.items) }
    ensures cause { IfErr result (λ e. (insertion_refusal_in true doc.now.log version place (chars text.now) ≡ Some e)
        ⊎ ((insertion_refusal_in true doc.now.log version place (chars text.now) ≡ None) × (e ≡ Memory))) }
{
    insertions_at(alloc, doc, true, site, version, place, text)
}

// The insertions that are asked for at the place of the version, as places are counted.
fn insertions_at(
    alloc: Global,
    doc: &Doc,
    units: bool,
    site: Site,
    version: u32,
    place: u32,
    text: &str,
) -> Result<Vec<Op>, Refusal>
    ensures ok { IfOk result (λ ops. ops.items ≡ asked_insertions_in units doc.now.log site version place (chars text.now)) }
    ensures accepted { OnOk result (insertion_refusal_in units doc.now.log version place (chars text.now) ≡ None) }
    ensures counted { IfOk result (λ ops. vec_len ops ≡ length (chars text.now)) }
    ensures fits { IfOk result (λ ops. length doc.now.log + vec_len ops ≤ MAX_OPERATIONS) }
    ensures lawful { IfOk result (λ ops. IsLawful (doc.now.log ++ ops.items)) }
    ensures placed { IfOk result (λ ops. IsPlaced_in units doc.now.log version place ops.items) }
    ensures cause { IfErr result (λ e. (insertion_refusal_in units doc.now.log version place (chars text.now) ≡ Some e)
        ⊎ ((insertion_refusal_in units doc.now.log version place (chars text.now) ≡ None) × (e ≡ Memory))) }
{
    prove!(site.number() < 32);
    if version > doc.version() {
        return Err(Refusal::BadVersion);
    }
    let count = count_characters(text);
    if is_bad_count(count) {
        return Err(Refusal::BadText);
    }
    let Some(parent) = parent_in(doc, units, version, place) else {
        return Err(Refusal::BadPlace);
    };
    if count > MAX_OPERATIONS - doc.version() as usize {
        return Err(Refusal::Full);
    }
    Ok(run(alloc, site, doc.clock(), parent, text)?)
}

// The parent of what is put in at the place of the version: none for the head. `None` where there is no such place.
fn parent_in(doc: &Doc, units: bool, version: u32, place: u32) -> Option<Option<Stamp>>
    requires { version ≤ length doc.now.log }
    ensures { MatchOption result (is_bad_place units doc.now.log version place ≡ true)
        (λ parent. (is_bad_place units doc.now.log version place ≡ false) × (parent ≡ parent_in_at units doc.now.log version place)) }
{
    let place = place as usize;
    if is_inside(doc, units, version, place) || place > len_at(doc, units, version) {
        return None;
    }
    if place == 0 {
        return Some(None);
    }
    let Some(before) = stamp_at(doc, units, version, place - 1) else {
        unreachable!();
    };
    Some(Some(before))
}

// Insertions of a site, one for each character: the first behind the parent, each next one behind the one before.
fn run(
    alloc: Global,
    site: Site,
    clock: Clock,
    parent: Option<Stamp>,
    text: &str,
) -> Result<Vec<Op>, AllocError>
    requires { sum clock + length (chars text.now) ≤ MAX_OPERATIONS }
    ensures { IfOk result (λ ops. ops.items ≡ insertion_run site clock parent (chars text.now)) }
{
    let mut ops = Vec::with_capacity(alloc, count_characters(text))?;
    let mut parent = parent;
    for ch in text.chars() {
        let known = known_behind(&clock, ops.as_slice());
        let op = Op::next(site, known, OpKind::Ins { parent, ch });
        parent = Some(op.stamp());
        ops.push(op)?;
    }
    Ok(ops)
}
