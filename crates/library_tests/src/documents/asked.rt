//! A document that is filled, and one that is filled and then asked: of the second `tests/refused_memory` looks whether it takes memory no
//! more often than the first.
use crate::documents::checked::{
    edit_at, edit_units_at, element_at, first_from, len_at, op_at, unit_at, units_at,
};
use crate::documents::comparison::fill_alone;
use opid::Refusal;
use std::alloc::Global;
use std::test::Fail;
use versions::Doc;

// Whether the operation behind the version is told, by its place and as the first of all that follow, and both its edits.
fn tells_next(doc: &Doc, version: u32) -> bool {
    let next = version.saturating_add(1);
    let is_told = edit_at(doc, next).is_some() && edit_units_at(doc, next).is_some();
    match op_at(doc, version) {
        Some(op) => is_told && first_from(doc, version) == Some(op),
        None => false,
    }
}

// Whether the version tells its last element, in either count, and what is done behind it.
fn tells(doc: &Doc, version: u32) -> bool {
    match (len_at(doc, version), units_at(doc, version)) {
        (Some(shown), Some(units)) => {
            let by_place = element_at(doc, version, shown.saturating_sub(1));
            let by_unit = unit_at(doc, version, units.saturating_sub(1));
            by_place == by_unit.map(|it| it.0) && tells_next(doc, version)
        }
        _ => false,
    }
}

// Fills a document, and asks it for so many versions.
fn tells_all(alloc: Global, doc: &mut Doc, versions: u32) -> Result<bool, Refusal> {
    fill_alone(alloc, doc)?;
    let mut all = true;
    for version in 0..versions {
        all &= tells(doc, version);
    }
    Ok(all)
}

#[test]
fn a_document_is_filled(rt: HostRuntime) -> Result<(), Fail> {
    assert!(rt; tells_all(rt.alloc(), &mut Doc::new(rt.alloc()), 0)?);
    Ok(())
}

#[test]
fn a_filled_document_is_asked(rt: HostRuntime) -> Result<(), Fail> {
    assert!(rt; tells_all(rt.alloc(), &mut Doc::new(rt.alloc()), 2_000)?);
    Ok(())
}
