//! Lines that are requests, answered by a desk.
ghost use Rattle.std.specs.Prelude.{◌≡◌};
ghost use Rattle.line_engine.specs.AnsweredRequests.{reply_of};

use crate::protocol::Protocol;
use crate::reply_line::ReplyLine;
use opid::Refusal;
use room::{Desk, DeskFault, Reply};
use std::alloc::{AllocError, Global};
use std::marker::PhantomData;
use wire_json::{MAX_REQUEST_BYTES, RequestReader};

/// Lines that are requests, which a desk answers.
pub struct Requests<D>(PhantomData<D>);

impl<D: Desk> Protocol for Requests<D> {
    ghost use Rattle.line_engine.specs.AnsweredRequests.{AnswersRequest};
    ghost use Rattle.line_engine.specs.Internal.AnswerLaws.{AnswersRequest-long};
    ghost use Rattle.std.proofs.Common.{rules};
    ghost use Rattle.opid.specs.declared.limits.TheConstants.{MAX_REQUEST_BYTES};

    type State = D;

    type Scratch = RequestReader;

    ghost LIMIT = { MAX_REQUEST_BYTES };

    ghost ready = { D.ready };

    ghost answers = { AnswersRequest D.step D.fault };

    const LIMIT: usize = MAX_REQUEST_BYTES;

    /// What reads the requests. Costs what `RequestReader::new` costs.
    fn scratch(alloc: Global) -> RequestReader {
        RequestReader::new(alloc)
    }

    /// The answer to a request. Takes the steps of `RequestReader::read`, of the desk's call and of `ReplyLine::new`.
    fn answer(
        alloc: Global,
        reader: &mut RequestReader,
        desk: &mut D,
        line: &[u8],
    ) -> Result<ReplyLine, AllocError> {
        match reader.read(alloc, line) {
            Ok(call) => ReplyLine::new(alloc, &reply_of(desk.call(call))),
            Err(refusal) => Ok(ReplyLine::refusal(refusal)),
        }
    }

    ghost fits = { Prim.search rules };

    ghost refuses_long = { λ desk line long. AnswersRequest-long D.step D.fault desk line long };
}

/// What a desk did, as a reply: a fault is the refusal 25 or 26. Constant time.
pub fn reply_of(done: Result<Reply, DeskFault>) -> Reply
    ensures { result ≡ reply_of done }
{
    match done {
        Ok(reply) => reply,
        Err(DeskFault::Worn) => Reply::No(Refusal::Worn),
        Err(DeskFault::Memory) => Reply::No(Refusal::Memory),
    }
}
