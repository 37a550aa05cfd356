//! What each use answers, by the definitions.
use crate::*;
use causal_clock::{Clock, Op};
use counted_tree::Steps;
use opid::{Edit, OpKind, Refusal, Site, Stamp, Submission};
use replica::Replica;
use replica_world::WorldReply;
use rga_list::Rga;
use room::{Call, Characters, Reply, Room};
use std::alloc::{AllocError, Global};
use std::test::Fail;
use versions::Doc;

#[test]
fn of_two_stamps_that_of_the_lower_site_stands_first(rt: HostRuntime) -> Result<(), Fail> {
    assert!(rt; of_opid::stands_first(7, 3, 4)?);
    assert!(rt; !of_opid::stands_first(7, 4, 4)?);
    assert!(rt; of_opid::stands_first(7, 4, 32) == Err(Refusal::BadSite));
    Ok(())
}

#[test]
fn a_site_begins(rt: HostRuntime) -> Result<(), Fail> {
    let site = Site::new(3)?;
    let (op, is_ready) = of_causal_clock::first_insertion(site, 'a', &Clock::zero())?;
    assert!(rt; is_ready && op.number() == (site, 1));
    let (_, is_ready) = of_causal_clock::first_insertion(site, 'a', op.known())?;
    assert!(rt; !is_ready);
    Ok(())
}

#[test]
fn a_text_is_typed_into(rt: HostRuntime) -> Result<(), Fail> {
    let text = of_splice::typed_into(rt.alloc(), "ac", 1, 'b')?;
    assert!(rt; text.characters() == ['a', 'b', 'c'].as_slice());
    let outside = of_splice::typed_into(rt.alloc(), "ac", 3, 'b');
    assert!(rt; outside.err() == Some(Refusal::BadPlace));
    Ok(())
}

// Whether the list has just that character, hidden.
fn hides(list: &Rga, stamp: Stamp, ch: char) -> bool {
    match list.next(None) {
        None => false,
        Some(elem) => list.get(elem) == (stamp, ch, false) && list.next(Some(elem)).is_none(),
    }
}

#[test]
fn a_hidden_character_stays(rt: HostRuntime) -> Result<(), Fail> {
    let stamp = Stamp {
        sum: 7,
        site: Site::new(2)?,
    };
    let list = of_rga_list::put_and_hidden(rt.alloc(), stamp, 'a')?;
    assert!(rt; hides(&list, stamp, 'a'));
    Ok(())
}

#[test]
fn each_version_has_its_first_element(rt: HostRuntime) -> Result<(), Fail> {
    assert!(rt; of_counted_tree::firsts(rt.alloc(), &mut Steps::new())? == (Some(0), Some(1)));
    Ok(())
}

#[test]
fn a_text_is_kept(rt: HostRuntime) -> Result<(), Fail> {
    for text in ["", "aé", "more than sixteen bytes"] {
        let (kept, again) = of_characters::kept_twice(rt.alloc(), text)?;
        assert!(rt; kept.as_str() == text && again.as_str() == text, "{text}");
    }
    Ok(())
}

// The insertion of a letter at the head as the operation of this number of a site.
fn letter(site: Site, number: u32) -> Result<Op, Refusal> {
    let clock = Clock::from_pairs(&[(site, number)])?;
    Op::new(
        site,
        clock,
        OpKind::Ins {
            parent: None,
            ch: 'a',
        },
    )
}

#[test]
fn the_first_edit_types_at_the_head(rt: HostRuntime) -> Result<(), Fail> {
    let site = Site::new(3)?;
    assert!(rt; of_versions::first_edit(rt.alloc(), &letter(site, 1)?)? == Edit::Ins(0, 'a'));
    assert!(rt; of_versions::first_edit(rt.alloc(), &letter(site, 2)?) == Err(Refusal::BadClock));
    Ok(())
}

// Whether the operations type `ab` at the head as the first ones of a site.
fn type_ab(ops: &[Op], site: Site) -> bool {
    let parent = Some(Stamp { sum: 1, site });
    let kinds = ops.iter().map(|op| op.kind());
    kinds.eq([
        OpKind::Ins {
            parent: None,
            ch: 'a',
        },
        OpKind::Ins { parent, ch: 'b' },
    ])
}

#[test]
fn a_place_asks_for_operations(rt: HostRuntime) -> Result<(), Fail> {
    let (doc, site) = (Doc::new(rt.alloc()), Site::new(3)?);
    let ops = of_position_translate::typed_first(rt.alloc(), &doc, site, "ab")?;
    assert!(rt; type_ab(&ops, site));
    let none = of_position_translate::typed_first(rt.alloc(), &doc, site, "");
    assert!(rt; none.err() == Some(Refusal::BadText));
    Ok(())
}

// Whether the second operation of a site leaves what is held once the first one is there, and not before.
fn waits_for_the_first(alloc: Global, site: Site) -> Result<bool, Refusal> {
    let (first, second) = (letter(site, 1)?, letter(site, 2)?);
    let none = of_holdback::taken_if_ready(alloc, second, &Clock::zero())?;
    let taken = of_holdback::taken_if_ready(alloc, second, first.known())?;
    Ok(none.is_none() && taken == Some(second))
}

#[test]
fn an_operation_waits_for_what_it_knows(rt: HostRuntime) -> Result<(), Fail> {
    assert!(rt; waits_for_the_first(rt.alloc(), Site::new(3)?)?);
    Ok(())
}

fn reads(replica: &Replica, text: &str) -> Result<bool, Refusal> {
    Ok(replica.doc().reading(replica.version())?.as_str() == text)
}

// Whether both replicas read what one of them types.
fn both_read(from: &mut Replica, to: &mut Replica) -> Result<bool, Refusal> {
    of_replica::type_in_both(from, to, "b")?;
    of_replica::type_in_both(from, to, "a")?;
    Ok(reads(from, "ab")? && reads(to, "ab")?)
}

#[test]
fn what_one_replica_types_another_reads(rt: HostRuntime) -> Result<(), Fail> {
    let mut from = Replica::new(rt.alloc(), Site::new(0)?);
    assert!(rt; both_read(&mut from, &mut Replica::new(rt.alloc(), Site::new(1)?))?);
    Ok(())
}

#[test]
fn a_submission_comes_once_more(rt: HostRuntime) -> Result<(), Fail> {
    assert!(rt; of_session_outbox::sent_again(rt.alloc(), 2)? == Submission::Repeat(0, 2));
    Ok(())
}

fn types(call: &Call, session: u32, version: u32, text: &str) -> bool {
    match call {
        Call::Ins { s, n, v, k, x } => (*s, *n, *v, *k) == (session, 1, version, 0)
            && x.as_str() == text,
        _ => false,
    }
}

#[test]
fn a_session_types(rt: HostRuntime) -> Result<(), Fail> {
    assert!(rt;
        types(
            &of_room_model::first_typing(rt.alloc(), 5, 3, "ab")?,
            5,
            3,
            "ab"
        )
    );
    Ok(())
}

// Whether the reply opens session 1 at version 0, which reads nothing.
fn opens(reply: &Reply) -> bool {
    match reply {
        Reply::Joined { s, v, x } => (*s, *v) == (1, 0) && x.as_str().is_empty(),
        _ => false,
    }
}

#[test]
fn a_session_joins(rt: HostRuntime) -> Result<(), Fail> {
    let mut room = Room::new(rt.alloc(), Site::new(3)?);
    assert!(rt; opens(&of_room::joined(&mut room)?));
    Ok(())
}

// Whether the first session joins at site 1 of the world, and none at site 2, which isn't there.
fn has_two_sites(alloc: Global, there: Site, elsewhere: Site) -> Result<bool, AllocError> {
    let joined = match of_replica_world::joined_at(alloc, there)? {
        WorldReply::Room(reply) => opens(&reply),
        _ => false,
    };
    let refused = of_replica_world::joined_at(alloc, elsewhere)?;
    Ok(joined && matches!(refused, WorldReply::No(Refusal::NoRoom)))
}

#[test]
fn a_session_joins_at_a_site(rt: HostRuntime) -> Result<(), Fail> {
    assert!(rt; has_two_sites(rt.alloc(), Site::new(1)?, Site::new(2)?)?);
    Ok(())
}

#[test]
fn an_editor_is_opened(rt: HostRuntime) -> Result<(), Fail> {
    let x = Characters::from_str(rt.alloc(), "ab")?;
    let editor = of_editors::opened_by(rt.alloc(), &Reply::Joined { s: 1, v: 3, x })?;
    assert!(rt; editor.version() == 3 && editor.text().characters() == ['a', 'b'].as_slice());
    Ok(())
}
