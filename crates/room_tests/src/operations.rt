//! Operations as tests write them down, lists of operations beside those, and an empty replica.
use causal_clock::{Clock, Op};
use opid::{OpKind, Refusal, Site, Stamp};
use replica::Replica;
use std::alloc::Global;

/// Asks something of an empty replica of site 0. (What a function owns costs its proof at each step, so all others borrow it.)
pub(crate) fn of_an_empty_replica<F: Fn(Global, &mut Replica) -> Result<bool, Refusal>>(
    alloc: Global,
    asked: F,
) -> Result<bool, Refusal>
    requires { F.IsAlwaysCallable asked }
{
    let site = Site::new(0)?;
    asked(alloc, &mut Replica::new(alloc, site))
}

/// The stamp of this sum and site.
pub(crate) fn stamp(sum: u32, site: u8) -> Result<Stamp, Refusal> {
    let site = Site::new(site)?;
    Ok(Stamp { sum, site })
}

/// The insertion of a character behind an element.
pub(crate) fn behind(parent: Stamp, ch: char) -> OpKind {
    OpKind::Ins {
        parent: Some(parent),
        ch,
    }
}

/// The insertion of a character at the head.
pub(crate) fn at_head(ch: char) -> OpKind {
    OpKind::Ins { parent: None, ch }
}

/// The operation number `n` of a site, made where so many of site 0 were known.
pub(crate) fn operation(site: u8, known: u32, n: u32, kind: OpKind) -> Result<Op, Refusal> {
    let (zero, own) = (Site::new(0)?, Site::new(site)?);
    let clock = if site == 0 || known == 0 {
        Clock::from_pairs(&[(own, n)])?
    } else {
        Clock::from_pairs(&[(zero, known), (own, n)])?
    };
    Op::new(own, clock, kind)
}

/// Whether these operations are just those two.
pub(crate) fn are_two(ops: &[Op], first: Op, second: Op) -> bool {
    ops.len() == 2 && ops.first() == Some(&first) && ops.last() == Some(&second)
}
