//! Lines of a script, answered by a world.
ghost use Rattle.std.specs.Prelude.{◌≡◌, ℕ, List, MatchResult};
ghost use Rattle.line_engine.specs.Lines.{ended};
ghost use Rattle.line_engine.specs.LineBytes.{line_bytes, TellsNoRefusal};
ghost use Rattle.commands.specs.Worlds.{reply_text, AnswersEvent};

use crate::script::{MAX_LINE_BYTES, read_event};
use line_engine::{Protocol, ReplyLine};
use opid::Refusal;
use replica_world::{Event, World, WorldReply};
use std::alloc::{AllocError, Global};
use wire_json::RequestReader;

/// Lines that are events of a world.
pub(crate) struct Scripts;

impl Protocol for Scripts {
    ghost use Rattle.std.proofs.Common.{rules};
    ghost use Rattle.commands.specs.Worlds.{AnswersLine};
    ghost use Rattle.commands.specs.Internal.WorldLaws.{AnswersLine-long};

    type State = World;

    type Scratch = RequestReader;

    ghost LIMIT = { 65600 };

    ghost ready = { λ _. Unit {0} };

    ghost answers = { AnswersLine };

    const LIMIT: usize = MAX_LINE_BYTES;

    fn scratch(alloc: Global) -> RequestReader {
        RequestReader::new(alloc)
    }

    fn answer(
        alloc: Global,
        reader: &mut RequestReader,
        world: &mut World,
        line: &[u8],
    ) -> Result<ReplyLine, AllocError> {
        match read_event(alloc, reader, line) {
            Ok(event) => take(alloc, world, event),
            Err(why) => Ok(ReplyLine::refusal(why)),
        }
    }

    ghost fits = { Prim.search rules };

    ghost refuses_long = { λ world line long. AnswersLine-long world line long };
}

// Answers an event, or tells that memory was refused for it.
fn take(alloc: Global, world: &mut World, event: Event) -> Result<ReplyLine, AllocError>
    ensures { (text : List ℕ) × AnswersEvent world.old event text world.new
        × MatchResult result (λ made. line_bytes made ≡ ended text) (λ _. TellsNoRefusal text) }
{
    match world.step(event) {
        Ok(reply) => reply_line(alloc, &reply),
        Err(_) => Ok(ReplyLine::refusal(Refusal::Memory)),
    }
}

// The line of a world's reply.
fn reply_line(alloc: Global, reply: &WorldReply) -> Result<ReplyLine, AllocError>
    ensures { MatchResult result (λ made. line_bytes made ≡ ended (reply_text reply.now)) (λ _. TellsNoRefusal (reply_text reply.now)) }
{
    match reply {
        WorldReply::Room(reply) => ReplyLine::new(alloc, reply),
        WorldReply::Forked => Ok(ReplyLine::Fixed("{\"r\":\"forked\"}\n")),
        WorldReply::No(why) => Ok(ReplyLine::refusal(*why)),
    }
}
