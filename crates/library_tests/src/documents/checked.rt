//! A document's calls with their conditions looked at first, as tests make them.
use causal_clock::{Clock, MAX_SUM, Op};
use opid::{Edit, OpKind, Refusal, Site, Stamp};
use versions::Doc;

/// The site's operation after those that the clock counts.
pub(crate) fn next_op(clock: &Clock, site: Site, kind: OpKind) -> Result<Op, Refusal> {
    if clock.sum() >= MAX_SUM {
        return Err(Refusal::Full);
    }
    Op::new(site, clock.raised(site), kind)
}

/// Puts an operation behind the log, if it is ready and rising.
pub(crate) fn integrate(doc: &mut Doc, op: &Op) -> Result<Edit, Refusal> {
    if !doc.clock().ready(op) {
        return Err(Refusal::BadClock);
    }
    if doc.last_sum(op.site()) >= op.stamp().sum {
        return Err(Refusal::NotRising);
    }
    doc.integrate(op)
}

/// The operation that made version `i + 1`, if there is one.
pub(crate) fn op_at(doc: &Doc, i: u32) -> Option<Op> {
    if i >= doc.version() {
        return None;
    }
    Some(doc.op(i))
}

/// The same, as the first of those that follow.
pub(crate) fn first_from(doc: &Doc, i: u32) -> Option<Op> {
    if i > doc.version() {
        return None;
    }
    doc.ops_from(i).next()
}

/// The edit that made the version, if there is one.
pub(crate) fn edit_at(doc: &Doc, version: u32) -> Option<Edit> {
    if version == 0 || version > doc.version() {
        return None;
    }
    Some(doc.edit(version))
}

/// The same edit in UTF-16 units, if there is one.
pub(crate) fn edit_units_at(doc: &Doc, version: u32) -> Option<Edit> {
    if version == 0 || version > doc.version() {
        return None;
    }
    Some(doc.edit_units(version))
}

/// How many characters the version has, if there is that version.
pub(crate) fn len_at(doc: &Doc, version: u32) -> Option<usize> {
    if version > doc.version() {
        return None;
    }
    Some(doc.len_at(version))
}

/// The stamp of the element at the place of the version, if there is one.
pub(crate) fn element_at(doc: &Doc, version: u32, place: usize) -> Option<Stamp> {
    if version > doc.version() {
        return None;
    }
    doc.element_at(version, place)
}

/// How many UTF-16 units the version has, if there is that version.
pub(crate) fn units_at(doc: &Doc, version: u32) -> Option<usize> {
    if version > doc.version() {
        return None;
    }
    Some(doc.units_at(version))
}

/// The stamp of the element that has the unit at the place of the version, and 1 where it is the second of a pair, if there
/// is one.
pub(crate) fn unit_at(doc: &Doc, version: u32, place: usize) -> Option<(Stamp, u8)> {
    if version > doc.version() {
        return None;
    }
    doc.unit_at(version, place)
}
