//! Lines that are answered through a pass that is lent.
ghost use Rattle.shared_room.specs.Views.{IsPassOf};

use crate::shared::shared;
use line_engine::Counted;
use shared_lines::serve_through_pass;
use shared_room::{Pass, SharedRoom};
use std::alloc::Global;
use std::sync::Wait;
use std::test::Fail;

const ASKED: &[u8] = b"{\"t\":\"join\"}\n\
    {\"t\":\"ins\",\"s\":1,\"n\":1,\"v\":0,\"k\":0,\"x\":\"a\"}\n\
    {\"t\":\"pull\",\"s\":1,\"have\":0,\"max\":64}\n\
    {\"t\":\"ops\",\"after\":0,\"max\":64}\n\
    {\"t\":\"put\",\"ops\":[{\"c\":[[1,1]],\"k\":\"i\",\"p\":null,\"s\":1,\"x\":\"b\"}]}\n\
    {\"t\":\"read\"}\n\
    {\"t\":\"leave\",\"s\":1}\n\
    {\"t\":\"join\"}\n";

const ANSWERED: &[u8] = b"{\"r\":\"joined\",\"s\":1,\"v\":0,\"x\":\"\"}\n\
    {\"from\":0,\"r\":\"ok\",\"to\":1}\n\
    {\"es\":[[\"i\",0,\"a\"]],\"from\":0,\"r\":\"edits\"}\n\
    {\"from\":0,\"ops\":[{\"c\":[[0,1]],\"k\":\"i\",\"p\":null,\"s\":0,\"x\":\"a\"}],\"r\":\"ops\"}\n\
    {\"os\":[[\"took\",1,0]],\"r\":\"put\"}\n\
    {\"r\":\"text\",\"v\":2,\"x\":\"ba\"}\n\
    {\"r\":\"left\"}\n\
    {\"n\":25,\"r\":\"no\"}\n";

// Serves eight lines, with seven draws.
fn answers_seven<R: Wait>(rt: &R, alloc: Global, room: &SharedRoom, pass: &mut Pass) -> bool
    requires { IsPassOf room.now pass.old }
{
    let Ok(mut lent) = room.split(pass, 7) else {
        return false;
    };
    let mut written = [0; 268];
    let mut input = Counted::new(ASKED);
    let mut output = Counted::new(&mut written[..]);
    let end = serve_through_pass(rt, alloc, room, &mut lent, &mut input, &mut output);
    let left = output.into_inner().len();
    end == Ok(()) && left == 0 && written.as_slice() == ANSWERED
}

#[test]
fn each_draw_answers_one_line(rt: HostRuntime) -> Result<(), Fail> {
    let (room, mut pass) = shared(rt.alloc())?;
    assert!(rt; answers_seven(&rt, rt.alloc(), &room, &mut pass));
    Ok(())
}
