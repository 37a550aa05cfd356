//! How an operation is printed for debugging, beside a struct that derives it with the fields in the order of the print.
use causal_clock::Clock;
use opid::{OpKind, Refusal, Site, Stamp};
use std::alloc::Global;
use std::test::Fail;

// The fields of an operation in the order in which they are printed.
#[derive(Clone, Copy, Debug)]
struct Op {
    site: Site,
    clock: Clock,
    kind: OpKind,
}

// Whether the two are printed alike, on one line and on many.
fn are_alike(alloc: Global, op: &causal_clock::Op, derived: &Op) -> Result<bool, Refusal> {
    let on_one_line = format!(in alloc; "{op:?}")? == format!(in alloc; "{derived:?}")?;
    let on_many = format!(in alloc; "{op:#?}")? == format!(in alloc; "{derived:#?}")?;
    Ok(on_one_line && on_many)
}

// Whether an operation of the site is printed as its fields are.
fn is_printed_so(alloc: Global, site: Site, kind: OpKind) -> Result<bool, Refusal> {
    let count = 4_096 * u32::from(site.number()) + 1;
    let clock = Clock::from_pairs(&[(site, count)])?;
    let op = causal_clock::Op::new(site, clock, kind)?;
    let derived = Op {
        site: op.site(),
        clock: op.clock(),
        kind: op.kind(),
    };
    are_alike(alloc, &op, &derived)
}

// Whether each kind of operation of the site is.
fn are_printed_so(alloc: Global, site: Site) -> Result<bool, Refusal> {
    let stamp = Stamp { sum: 70_000, site };
    let (first, behind) = (None, Some(stamp));
    let mut all = is_printed_so(
        alloc,
        site,
        OpKind::Ins {
            parent: first,
            ch: 'a',
        },
    )?;
    all &= is_printed_so(
        alloc,
        site,
        OpKind::Ins {
            parent: behind,
            ch: '\n',
        },
    )?;
    all &= is_printed_so(alloc, site, OpKind::Del { target: stamp })?;
    Ok(all)
}

// Whether they are of all sites.
fn are_printed_by_all(alloc: Global) -> Result<bool, Refusal> {
    let mut all = true;
    for number in 0..32 {
        all &= are_printed_so(alloc, Site::new(number)?)?;
    }
    Ok(all)
}

#[test]
fn operations_are_printed_as_their_fields(rt: HostRuntime) -> Result<(), Fail> {
    assert!(rt; are_printed_by_all(rt.alloc())?);
    Ok(())
}
