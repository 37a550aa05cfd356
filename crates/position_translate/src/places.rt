//! A version by its places, as they are counted: in characters, or in UTF-16 units.
ghost use Rattle.std.specs.Prelude.{◌≡◌, ◌≤◌, true, length, option_map, slice_get};
ghost use Rattle.opid.specs.Reading.{visible_in_at, reading_in_at};
ghost use Rattle.opid.specs.Splice.{is_inside};

use opid::Stamp;
use versions::Doc;

/// How many places the version has.
pub(crate) fn len_at(doc: &Doc, units: bool, version: u32) -> usize
    requires { version ≤ length doc.now.log }
    ensures { result ≡ length (visible_in_at units doc.now.log version) }
{
    if units {
        doc.units_at(version)
    } else {
        doc.len_at(version)
    }
}

/// The stamp of the element at the place in the version, if that is so long.
pub(crate) fn stamp_at(doc: &Doc, units: bool, version: u32, place: usize) -> Option<Stamp>
    requires { version ≤ length doc.now.log }
    ensures { result ≡ option_map (λ x. x.stamp) (slice_get (visible_in_at units doc.now.log version) place) }
{
    if units {
        let (stamp, _) = doc.unit_at(version, place)?;
        Some(stamp)
    } else {
        doc.element_at(version, place)
    }
}

/// Whether the place is inside a pair of units.
pub(crate) fn is_inside(doc: &Doc, units: bool, version: u32, place: usize) -> bool
    requires { version ≤ length doc.now.log }
    ensures { result ≡ is_inside units (reading_in_at units doc.now.log version) place }
{
    units && is_second(doc, version, place)
}

fn is_second(doc: &Doc, version: u32, place: usize) -> bool
    requires { version ≤ length doc.now.log }
    ensures { result ≡ is_inside true (reading_in_at true doc.now.log version) place }
{
    match doc.unit_at(version, place) {
        Some((_, second)) => second == 1,
        None => false,
    }
}
