//! The answer to one message.
ghost use Rattle.std.specs.Prelude.{◌≡◌, ℕ, ◌<◌, List, Option, IfOk, IfErr, IfSome, MatchResult, None, Ok, length, string_bytes};
ghost use Rattle.shared_room.specs.Turns.{Answers, FaultsPass};
ghost use Rattle.shared_room.specs.Views.{view, opening, IsPassOf};
ghost use Rattle.line_engine.specs.declared.fault.ServeFault.TheVariants.{Memory};
ghost use Rattle.line_engine.specs.Lines.{ended};
ghost use Rattle.line_engine.specs.LineBytes.{line_bytes, IsFixed, TellsNoRefusal};
ghost use Rattle.ws_server.specs.Halls.{rooms_of, IsHallPassOf, IsConnOf};
ghost use Rattle.ws_server.specs.Frames.{AnswersOver, AnswersFrame, OpensRoom};
ghost use Rattle.ws_server.specs.Gates.{next_call};
ghost use Rattle.ws_server.specs.Internal.AnswerLines.{IsLineOf};

use crate::conn::Conn;
use crate::gate::Witness;
use crate::hall::{Hall, HallPass};
use crate::message::text_of;
use line_engine::{ReplyLine, ServeFault, reply_of};
use opid::Refusal;
use room::{Call, Desk, DeskFault, Reply};
use shared_room::{Pass, PassDesk, SharedRoom};
use std::alloc::Global;
use std::sync::Wait;
use wire_json::{RequestReader, read_open};

// The line that tells that a room was opened.
const OPENED: &str = "{\"r\":\"opened\"}\n";

/// The line that answers a message, and the number of the call that it made, if it made one.
#[derive(Drop)]
pub(crate) struct Answered {
    pub(crate) line: ReplyLine,
    pub(crate) call: Option<u64>,
}

// What the room tells, through the pass, at its turn.
fn ask<R: Wait>(rt: &R, room: &SharedRoom, pass: &mut Pass, call: Call) -> Result<Reply, DeskFault>
    requires { IsPassOf room.now pass.old }
    ensures pass { IsPassOf room.now pass.new }
    ensures answered { MatchResult result (λ reply. Answers (opening room.now) (view pass.old) (view pass.new) call reply)
        (λ why. FaultsPass (view pass.old) why (view pass.new)) }
{
    let mut desk = PassDesk::new(rt, room, pass);
    desk.call(call)
}

// The number of the call after so many.
fn next_call(calls: u64) -> u64
    ensures { result ≡ next_call calls }
{
    calls.saturating_add(1)
}

// The answer over the pass of the opened room. A fault leaves what the message did.
fn answer_over<R: Wait, G: Witness>(
    rt: &R,
    alloc: Global,
    room: &SharedRoom,
    pass: &mut Pass,
    calls: &mut u64,
    reader: &mut RequestReader,
    bytes: &[u8],
    gate: &mut G,
) -> Result<Answered, ServeFault>
    requires { IsPassOf room.now pass.old }
    ensures pass { IsPassOf room.now pass.new }
    ensures answered { (answer : List ℕ) × (made : Option ℕ)
        × AnswersOver G.told_before room.now (record { desk = pass.old; calls = calls.old; gate = gate.old; made = None }) bytes.now answer
        (record { desk = pass.new; calls = calls.new; gate = gate.new; made = made })
        × MatchResult result (λ answered. IsLineOf answer answered.line × (answered.call ≡ made)) (λ _. TellsNoRefusal answer) }
    ensures memory { IfErr result (λ why. why ≡ Memory) }
{
    match reader.read(alloc, bytes) {
        Ok(call) => {
            let n = next_call(*calls);
            *calls = n;
            gate.tell_before(n, pass);
            let reply = reply_of(ask(rt, room, pass, call));
            match ReplyLine::new(alloc, &reply) {
                Ok(line) => Ok(Answered {
                    line,
                    call: Some(n),
                }),
                Err(_) => Err(ServeFault::Memory),
            }
        }
        Err(refusal) => Ok(Answered {
            line: ReplyLine::refusal(refusal),
            call: None,
        }),
    }
}

// The answer to a message of a connection that has opened no room.
fn open(alloc: Global, hall: &Hall, opened: &mut Option<usize>, bytes: &[u8]) -> ReplyLine
    requires { opened.old ≡ None }
    ensures opened { (answer : List ℕ) × OpensRoom hall.now bytes.now answer opened.new × (line_bytes result ≡ ended answer) }
    ensures within { IfSome opened.new (λ at. at < length (rooms_of hall.now)) }
    ensures fixed { IsFixed result }
{
    let name = match read_open(alloc, bytes) {
        Ok(name) => name,
        Err(why) => return ReplyLine::refusal(why),
    };
    match hall.place(name.as_str()) {
        Some(at) => {
            *opened = Some(at);
            ReplyLine::Fixed(OPENED)
        }
        None => ReplyLine::refusal(Refusal::NoRoom),
    }
}

// The answer to a message, as `answer_frame` tells.
pub(crate) fn answer_message<R: Wait, G: Witness>(
    rt: &R,
    alloc: Global,
    hall: &Hall,
    pass: &mut HallPass,
    conn: &mut Conn,
    bytes: &[u8],
    gate: &mut G,
) -> Result<Answered, ServeFault>
    requires pass { IsHallPassOf hall.now pass.old }
    requires conn { IsConnOf hall.now conn.old }
    ensures pass { IsHallPassOf hall.now pass.new }
    ensures conn { IsConnOf hall.now conn.new }
    ensures answered { (answer : List ℕ) × (made : Option ℕ)
        × AnswersFrame G.told_before hall.now (record { conn = conn.old; passes = pass.old.passes.items; gate = gate.old })
        bytes.now answer made
        (record { conn = conn.new; passes = pass.new.passes.items; gate = gate.new })
        × MatchResult result (λ answered. IsLineOf answer answered.line × (answered.call ≡ made)) (λ _. TellsNoRefusal answer) }
    ensures memory { IfErr result (λ why. why ≡ Memory) }
{
    match conn.opened {
        None => Ok(Answered {
            line: open(alloc, hall, &mut conn.opened, bytes),
            call: None,
        }),
        Some(at) => answer_over(
            rt,
            alloc,
            hall.room(at),
            &mut pass.passes[at],
            &mut conn.calls,
            &mut conn.reader,
            bytes,
            gate,
        ),
    }
}

/// The text that answers one message's bytes, which are taken whole, also where they hold an LF or are none.
///
/// Until the connection has opened a room, an `open` (`wire_json::read_open`) is answered, and everything else is
/// refused: an unknown room by 4. From then on the bytes are a request, as a line is for the line engine, at the opened
/// room, and a further `open` is one of an unknown kind. Each call is counted, and the gate is told of its number before the
/// room is asked, when the pass is as it was; what is told after a call is the sender's.
///
/// The only fault is `Memory`, where the text finds none, be it a refusal's, which is copied; what the message did stays. Waits for
/// its turn of the room. Takes time and memory in proportion to the bytes and the answer, and the room's call.
pub fn answer_frame<R: Wait, G: Witness>(
    rt: &R,
    alloc: Global,
    hall: &Hall,
    pass: &mut HallPass,
    conn: &mut Conn,
    bytes: &[u8],
    gate: &mut G,
) -> Result<String, ServeFault>
    requires pass { IsHallPassOf hall.now pass.old }
    requires conn { IsConnOf hall.now conn.old }
    ensures pass { IsHallPassOf hall.now pass.new }
    ensures conn { IsConnOf hall.now conn.new }
    ensures answered { (answer : List ℕ) × (made : Option ℕ)
        × AnswersFrame G.told_before hall.now (record { conn = conn.old; passes = pass.old.passes.items; gate = gate.old })
        bytes.now answer made
        (record { conn = conn.new; passes = pass.new.passes.items; gate = gate.new })
        × IfOk result (λ text. string_bytes text ≡ answer) }
    ensures memory { IfErr result (λ why. why ≡ Memory) }
{
    let Answered { line, call: _ } = answer_message(rt, alloc, hall, pass, conn, bytes, gate)?;
    match text_of(alloc, line) {
        Ok(text) => Ok(text),
        Err(_) => Err(ServeFault::Memory),
    }
}
