//! The line that is sent for an answer.
ghost use Rattle.std.specs.Prelude.{◌≡◌, IfOk, IsOkAnd};
ghost use Rattle.opid.specs.declared.refusal.Refusal.{Refusal};
ghost use Rattle.room_model.specs.declared.reply.Reply.TheVariants.{No};
ghost use Rattle.wire_json.specs.Text.{text};
ghost use Rattle.line_engine.specs.Lines.{ended};
ghost use Rattle.line_engine.specs.LineBytes.{line_bytes, IsFixed};

use crate::fixed::refusal_line;
use opid::Refusal;
use room::Reply;
use std::alloc::{AllocError, Global};
use wire_json::write_reply;

/// The line of an answer: its text, and LF.
#[derive(Debug, Drop)]
pub enum ReplyLine {
    /// A line that was made.
    Made(String),
    /// A line that stands in the program, and needs no memory.
    Fixed(&'static str),
}

impl ReplyLine {
    /// The line of a reply. An error is for want of memory; a refusal's line needs none. Takes time and memory in
    /// proportion to the text.
    pub fn new(alloc: Global, reply: &Reply) -> Result<ReplyLine, AllocError>
        ensures line { IfOk result (λ made. line_bytes made ≡ ended (text reply.now)) }
        ensures refusal { (why : Refusal) → reply.now ≡ No why → IsOkAnd result IsFixed }
    {
        if let Reply::No(why) = reply {
            return Ok(ReplyLine::refusal(*why));
        }
        let Ok(mut line) = write_reply(alloc, reply) else {
            return Err(AllocError);
        };
        line.push('\n')?;
        Ok(ReplyLine::Made(line))
    }

    /// The line of a refusal. Constant time, and no memory.
    pub fn refusal(why: Refusal) -> ReplyLine
        ensures line { line_bytes result ≡ ended (text (No why)) }
        ensures fixed { IsFixed result }
    {
        ReplyLine::Fixed(refusal_line(why))
    }

    /// The bytes, with the LF. Constant time.
    pub fn as_bytes(&self) -> &[u8]
        ensures { result.now ≡ line_bytes self.now }
    {
        match self {
            ReplyLine::Made(line) => line.as_bytes(),
            ReplyLine::Fixed(line) => line.as_bytes(),
        }
    }
}
