//! What each use answers, by the definitions.
use crate::*;
use causal_clock::{Clock, Op};
use opid::{OpKind, Refusal, Site};
use plans::{Plan, PlanFault};
use replica::Replica;
use room::Room;
use std::alloc::Global;
use std::test::Fail;

#[test]
fn characters_are_quoted(rt: HostRuntime) -> Result<(), Fail> {
    assert!(rt;
        of_json_bytes::quoted(rt.alloc(), 'a', &['"', '\n'])?.as_slice()
            == b"\"a\\\"\\n\"".as_slice()
    );
    Ok(())
}

// The first operation of a site: a letter at the head.
fn first_of(site: Site) -> Result<Op, Refusal> {
    let typed = OpKind::Ins {
        parent: None,
        ch: 'a',
    };
    Op::new(site, Clock::from_pairs(&[(site, 1)])?, typed)
}

#[test]
fn an_operation_is_read_back(rt: HostRuntime) -> Result<(), Fail> {
    let op = first_of(Site::new(3)?)?;
    assert!(rt; of_operation_json::read_back(rt.alloc(), &op)? == op);
    Ok(())
}

#[test]
fn a_request_is_answered(rt: HostRuntime) -> Result<(), Fail> {
    let site = Site::new(0)?;
    let mut room = Room::new(rt.alloc(), site);
    let told = of_wire_json::answered(rt.alloc(), &mut room, b"{\"t\":\"read\"}")?;
    assert!(rt; told.as_str() == "{\"r\":\"text\",\"v\":0,\"x\":\"\"}");
    let mut other = Room::new(rt.alloc(), site);
    let refused = of_wire_json::answered(rt.alloc(), &mut other, b"{");
    assert!(rt; refused.err() == Some(Refusal::BadJson));
    Ok(())
}

// Whether what a replica typed is read at another site, and the log isn't opened at its own.
fn opens(alloc: Global, replica: &mut Replica, other: Site) -> Result<bool, Refusal> {
    replica.submit_ins(0, 0, "ab")?;
    let opened = of_snapshot::opened_elsewhere(alloc, replica, other)?;
    let own = of_snapshot::opened_elsewhere(alloc, replica, replica.site());
    Ok(opened.doc().reading(2)?.as_str() == "ab" && own.err() == Some(Refusal::SiteUsed))
}

#[test]
fn a_log_is_opened_elsewhere(rt: HostRuntime) -> Result<(), Fail> {
    assert!(rt;
        opens(
            rt.alloc(),
            &mut Replica::new(rt.alloc(), Site::new(0)?),
            Site::new(1)?
        )?
    );
    Ok(())
}

#[test]
fn lines_of_a_log_are_read(rt: HostRuntime) -> Result<(), Fail> {
    let op = first_of(Site::new(3)?)?;
    match of_journal::written_and_read(rt.alloc(), &[op]) {
        Ok(journal) => assert!(rt; journal.doc.version() == 1),
        Err(why) => assert!(rt; false, "{why}"),
    }
    Ok(())
}

#[test]
fn an_operation_is_kept(rt: HostRuntime) -> Result<(), Fail> {
    let op = first_of(Site::new(3)?)?;
    assert!(rt; of_keeper::kept(rt.alloc(), &[op]) == Some(1));
    Ok(())
}

#[test]
fn a_document_begins_anew(rt: HostRuntime) -> Result<(), Fail> {
    let doc = of_renewal::begun_anew(rt.alloc(), "aé", Site::new(3)?, Site::new(5)?)?;
    assert!(rt; doc.reading(doc.version())?.as_str() == "aé");
    Ok(())
}

#[test]
fn lines_are_answered(rt: HostRuntime) -> Result<(), Fail> {
    let told = of_line_engine::answers_of(rt.alloc(), Site::new(0)?, b"{\"t\":\"read\"}\n{");
    let Ok(told) = told else {
        assert!(rt; false);
        return Ok(());
    };
    assert!(rt;
        told.as_slice()
            == b"{\"r\":\"text\",\"v\":0,\"x\":\"\"}\n{\"n\":1,\"r\":\"no\"}\n".as_slice()
    );
    Ok(())
}

#[test]
fn a_world_has_sites(rt: HostRuntime) {
    assert!(rt;
        matches!(&of_plans::world_of(32), Some(Plan::World { sites }) if sites.count() == 32)
    );
    assert!(rt; of_plans::world_of(33).is_none());
}

#[test]
fn a_word_asks_for_a_plan(rt: HostRuntime) {
    let planned = of_command_line::plan_of(rt.alloc(), "text");
    assert!(rt; matches!(&planned, Ok(Plan::Text { version: None })));
    let refused = of_command_line::plan_of(rt.alloc(), "walk");
    assert!(rt; matches!(&refused, Err(PlanFault::Words(_))));
}

#[test]
fn a_snapshot_is_read(rt: HostRuntime) -> Result<(), Fail> {
    let saved =
        b"{\"format\":1,\"ops\":[{\"c\":[[0,1]],\"k\":\"i\",\"p\":null,\"s\":0,\"x\":\"H\"}]}";
    match of_commands::text_of(rt.alloc(), saved) {
        Ok(told) => assert!(rt; told.as_slice() == b"H\n".as_slice()),
        Err(why) => assert!(rt; false, "{why}"),
    }
    Ok(())
}
