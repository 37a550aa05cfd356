//! How what is held back leaves. What is kept, and what is refused, is asked in conversations.
use crate::lending::lend;
use causal_clock::{Clock, Op};
use holdback::Held;
use opid::{OpKind, Refusal, Site};
use std::test::Fail;

// The insertion of the character at the head by site 1, with this own entry.
fn insertion(own: u32, ch: char) -> Result<Op, Refusal> {
    let one = Site::new(1)?;
    let clock = Clock::from_pairs(&[(one, own)])?;
    Op::new(one, clock, OpKind::Ins { parent: None, ch })
}

// The third and the second operation of a site, and one that stays.
fn leave_in_turn(held: &mut Held) -> Result<bool, Refusal> {
    held.reserve(3)?;
    let (third, second) = (insertion(3, 'c')?, insertion(2, 'b')?);
    held.offer(third)?;
    held.offer(second)?;
    held.offer(insertion(9, 'd')?)?;
    let first = insertion(1, 'a')?.clock();
    let mut all = held.take_first_ready(&Clock::zero()).is_none();
    all &= held.take_first_ready(&first) == Some(second);
    all &= held.take_first_ready(&first).is_none();
    all &= held.take_first_ready(&second.clock()) == Some(third);
    Ok(all && held.len() == 1)
}

#[test]
fn the_first_ready_one_leaves(rt: HostRuntime) -> Result<(), Fail> {
    assert!(rt; lend(Held::new(rt.alloc()), leave_in_turn)?);
    Ok(())
}
