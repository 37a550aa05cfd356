//! A connection over a stream each of whose calls fails in turn.
ghost use Rattle.ws_server.specs.Halls.{IsHallPassOf, IsConnOf};

use crate::halls::{Free, hall_of};
use std::alloc::Global;
use std::cell::Cell;
use std::io;
use std::io::{Error, ErrorKind, Read, Write};
use std::sync::Wait;
use std::test::Fail;
use ws_server::{Conn, Gate, Hall, HallPass, ServeFault, answer_frame, serve_socket};

// What a client sends: a head with the key of RFC 6455's example, and then frames, whose masks are zero.
pub(crate) const HEAD: &[u8] =
    b"GET / HTTP/1.1\r\nHost: here\r\nUpgrade: websocket\r\nConnection: Upgrade\r\nSec-WebSocket-Key: dGhlIHNhbXBsZSBub25jZQ==\r\nSec-WebSocket-Version: 13\r\n\r\n";

pub(crate) const OPEN: &[u8] = b"\x81\x9b\0\0\0\0{\"t\":\"open\",\"room\":\"notes\"}";

pub(crate) const JOIN: &[u8] = b"\x81\x8c\0\0\0\0{\"t\":\"join\"}";

pub(crate) const TYPE_A: &[u8] =
    b"\x81\xab\0\0\0\0{\"t\":\"ins\",\"s\":1,\"n\":1,\"v\":0,\"k\":0,\"x\":\"a\"}";

const TYPE_B: &[u8] =
    b"\x81\xab\0\0\0\0{\"t\":\"ins\",\"s\":1,\"n\":2,\"v\":0,\"k\":0,\"x\":\"b\"}";

pub(crate) const CLOSE: &[u8] = b"\x88\x80\0\0\0\0";

const PARTS: [&[u8]; 6] = [HEAD, OPEN, JOIN, TYPE_A, TYPE_B, CLOSE];

// How often a stream was called, how many of its parts it gave, which call fails, from 1 on, and how its end has to be told.
#[derive(Drop)]
pub(crate) struct Record {
    calls: Cell<usize>,
    given: Cell<usize>,
    fails_at: usize,
    fault: Cell<Option<ServeFault>>,
}

impl Record {
    pub(crate) fn new(fails_at: usize) -> Record {
        Record {
            calls: Cell::new(0),
            given: Cell::new(0),
            fails_at,
            fault: Cell::new(None),
        }
    }

    // Counts a call, and fails if it is the one that does, which is to be told so.
    fn call(&self, fault: ServeFault) -> io::Result<()> {
        self.calls.set(self.calls.get().saturating_add(1));
        if self.calls.get() == self.fails_at {
            self.fault.set(Some(fault));
            return Err(Error::from(ErrorKind::Other));
        }
        Ok(())
    }

    // How a write that fails is told: with `Write` where an answer is sent. The response to the head is the handshake's, and
    // the reply to a close goes out at the next read.
    fn fault_of_write(&self) -> ServeFault {
        match self.given.get() {
            2..6 => ServeFault::Write,
            _ => ServeFault::Read,
        }
    }
}

// Gives a part at each read, ends behind the last, and takes whatever is written.
#[derive(Drop)]
struct Script<'a> {
    parts: &'a [&'a [u8]],
    record: &'a Record,
}

impl Read for Script<'_> {
    fn read(&mut self, buf: &mut [u8]) -> io::Result<usize> {
        self.record.call(ServeFault::Read)?;
        let given = self.record.given.get();
        let Some(part) = self.parts.get(given) else {
            self.record.fault.set(Some(ServeFault::Read));
            return Ok(0);
        };
        let n = part.len().min(buf.len());
        buf[..n].copy_from_slice(&part[..n]);
        self.record.given.set(given.saturating_add(1));
        Ok(n)
    }
}

impl Write for Script<'_> {
    fn write(&mut self, buf: &[u8]) -> io::Result<usize> {
        self.record.call(self.record.fault_of_write())?;
        Ok(buf.len())
    }

    fn flush(&mut self) -> io::Result<()> {
        self.record.call(self.record.fault_of_write())
    }
}

// Whether a message has this answer.
pub(crate) fn asks<R: Wait>(
    rt: &R,
    alloc: Global,
    hall: &Hall,
    pass: &mut HallPass,
    conn: &mut Conn,
    bytes: &[u8],
    want: &str,
) -> bool
    requires pass { IsHallPassOf hall.now pass.old }
    requires conn { IsConnOf hall.now conn.old }
    ensures pass { IsHallPassOf hall.now pass.new }
    ensures conn { IsConnOf hall.now conn.new }
{
    match answer_frame(rt, alloc, hall, pass, conn, bytes, &mut Free) {
        Ok(told) => told.as_str() == want,
        Err(_) => false,
    }
}

// Whether a new connection reads the text of this answer.
pub(crate) fn reads<R: Wait>(
    rt: &R,
    alloc: Global,
    hall: &Hall,
    pass: &mut HallPass,
    want: &str,
) -> bool
    requires { IsHallPassOf hall.now pass.old }
{
    let mut conn = Conn::new(alloc);
    let open = b"{\"t\":\"open\",\"room\":\"notes\"}";
    let mut all = asks(rt, alloc, hall, pass, &mut conn, open, "{\"r\":\"opened\"}");
    all &= asks(rt, alloc, hall, pass, &mut conn, b"{\"t\":\"read\"}", want);
    all
}

// The answer to a read, once so many of the parts were given: the head, the open and the join come before what is typed.
pub(crate) fn reading_after(given: usize) -> &'static str {
    match given {
        0..4 => "{\"r\":\"text\",\"v\":0,\"x\":\"\"}",
        4 => "{\"r\":\"text\",\"v\":1,\"x\":\"a\"}",
        _ => "{\"r\":\"text\",\"v\":2,\"x\":\"ba\"}",
    }
}

// Serves a connection that sends these parts.
pub(crate) fn serve_script<R: Wait, G: Gate>(
    rt: &R,
    alloc: Global,
    hall: &Hall,
    pass: &mut HallPass,
    parts: &[&[u8]],
    record: &Record,
    gate: &mut G,
) -> Result<(), ServeFault>
    requires { IsHallPassOf hall.now pass.old }
    ensures { IsHallPassOf hall.now pass.new }
{
    serve_socket(rt, alloc, hall, pass, Script { parts, record }, gate)
}

// Whether a connection ended well, if it ended as its record says and the room is where the calls leave it that were given whole.
fn ends_as_told<R: Wait>(
    rt: &R,
    alloc: Global,
    hall: &Hall,
    pass: &mut HallPass,
    fails_at: usize,
) -> Option<bool>
    requires { IsHallPassOf hall.now pass.old }
{
    let record = Record::new(fails_at);
    let end = serve_script(rt, alloc, hall, pass, &PARTS, &record, &mut Free);
    let is_there = reads(rt, alloc, hall, pass, reading_after(record.given.get()));
    if is_there && end.err() == record.fault.get() {
        Some(end.is_ok())
    } else {
        None
    }
}

// The same in a hall of its own.
fn ends_as_told_anew<R: Wait>(
    rt: &R,
    alloc: Global,
    fails_at: usize,
) -> Result<Option<bool>, Fail> {
    let (hall, mut pass) = hall_of(alloc, &["notes"])?;
    Ok(ends_as_told(rt, alloc, &hall, &mut pass, fails_at))
}

#[test]
fn each_call_of_a_stream_fails(rt: HostRuntime) -> Result<(), Fail> {
    let mut all = true;
    let mut failed = 0;
    for fails_at in 1..100 {
        match ends_as_told_anew(&rt, rt.alloc(), fails_at)? {
            Some(false) => failed = fails_at,
            Some(true) => break,
            None => all = false,
        }
    }
    assert!(rt; all && failed > 11 && failed < 99);
    Ok(())
}
