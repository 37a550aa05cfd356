//! Messages that are refused, before a room is opened and then.
ghost use Rattle.ws_server.specs.Halls.{IsHallPassOf, IsConnOf};

use crate::halls::hall_of;
use crate::streams::asks;
use std::alloc::Global;
use std::sync::Wait;
use std::test::Fail;
use ws_server::{Conn, Hall, HallPass};

// One byte more than a message may have.
const LONG: &[u8] = &[b' '; 65_537];

// Whether all but an `open` of a room that is there is refused, by the protocol's numbers, and then that one is taken.
fn refuses_until_opened<R: Wait>(
    rt: &R,
    alloc: Global,
    hall: &Hall,
    pass: &mut HallPass,
    conn: &mut Conn,
) -> bool
    requires pass { IsHallPassOf hall.now pass.old }
    requires conn { IsConnOf hall.now conn.old }
    ensures pass { IsHallPassOf hall.now pass.new }
    ensures conn { IsConnOf hall.now conn.new }
{
    let mut all = asks(rt, alloc, hall, pass, conn, b"", "{\"n\":1,\"r\":\"no\"}");
    all &= asks(
        rt,
        alloc,
        hall,
        pass,
        conn,
        b"{\"t\":\"open\"}",
        "{\"n\":2,\"r\":\"no\"}",
    );
    all &= asks(
        rt,
        alloc,
        hall,
        pass,
        conn,
        b"{\"t\":\"read\"}",
        "{\"n\":3,\"r\":\"no\"}",
    );
    let another = b"{\"t\":\"open\",\"room\":\"drafts\"}";
    all &= asks(
        rt,
        alloc,
        hall,
        pass,
        conn,
        another,
        "{\"n\":4,\"r\":\"no\"}",
    );
    all &= asks(rt, alloc, hall, pass, conn, LONG, "{\"n\":29,\"r\":\"no\"}");
    let open = b"{\"t\":\"open\",\"room\":\"notes\"}";
    all &= asks(rt, alloc, hall, pass, conn, open, "{\"r\":\"opened\"}");
    all
}

// Whether what is wrong is refused over the room that was opened, and leaves it as it is.
fn refuses_over_a_room<R: Wait>(
    rt: &R,
    alloc: Global,
    hall: &Hall,
    pass: &mut HallPass,
    conn: &mut Conn,
) -> bool
    requires pass { IsHallPassOf hall.now pass.old }
    requires conn { IsConnOf hall.now conn.old }
    ensures pass { IsHallPassOf hall.now pass.new }
    ensures conn { IsConnOf hall.now conn.new }
{
    let mut all = asks(rt, alloc, hall, pass, conn, b"{", "{\"n\":1,\"r\":\"no\"}");
    all &= asks(
        rt,
        alloc,
        hall,
        pass,
        conn,
        b"{\"t\":\"read\",\"s\":1}",
        "{\"n\":2,\"r\":\"no\"}",
    );
    let open = b"{\"t\":\"open\",\"room\":\"notes\"}";
    all &= asks(rt, alloc, hall, pass, conn, open, "{\"n\":3,\"r\":\"no\"}");
    all &= asks(
        rt,
        alloc,
        hall,
        pass,
        conn,
        b"{\"t\":\"leave\",\"s\":1}",
        "{\"n\":5,\"r\":\"no\"}",
    );
    all &= asks(rt, alloc, hall, pass, conn, LONG, "{\"n\":29,\"r\":\"no\"}");
    let empty = "{\"r\":\"text\",\"v\":0,\"x\":\"\"}";
    all &= asks(rt, alloc, hall, pass, conn, b"{\"t\":\"read\"}", empty);
    all
}

fn refuses_each<R: Wait>(rt: &R, alloc: Global, hall: &Hall, pass: &mut HallPass) -> bool
    requires { IsHallPassOf hall.now pass.old }
{
    let mut conn = Conn::new(alloc);
    let mut all = refuses_until_opened(rt, alloc, hall, pass, &mut conn);
    all &= refuses_over_a_room(rt, alloc, hall, pass, &mut conn);
    all
}

#[test]
fn messages_are_refused(rt: HostRuntime) -> Result<(), Fail> {
    let (hall, mut pass) = hall_of(rt.alloc(), &["notes"])?;
    assert!(rt; refuses_each(&rt, rt.alloc(), &hall, &mut pass));
    Ok(())
}
