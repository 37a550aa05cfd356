//! What lines mean: who answers them, and what is an answer.
ghost use Rattle.std.specs.Prelude.{◌≡◌, MatchResult};

use crate::reply_line::ReplyLine;
use std::alloc::{AllocError, Global};

/// A kind of lines: what each is answered by a state, which it may change.
pub trait Protocol {
    ghost use Rattle.std.specs.Prelude.{◌≡◌, ◌<◌, ◌≤◌, ℕ, List, length, MatchResult};
    ghost use Rattle.room_model.specs.declared.reply.Reply.TheVariants.{No};
    ghost use Rattle.opid.specs.declared.refusal.Refusal.TheVariants.{TooLong};
    ghost use Rattle.wire_json.specs.Text.{text};
    ghost use Rattle.line_engine.specs.Lines.{ended};
    ghost use Rattle.line_engine.specs.LineBytes.{line_bytes, TellsNoRefusal};

    /// Who answers.
    type State;

    /// What is kept from line to line so that each takes less work. `answers` doesn't see it.
    type Scratch: Drop;

    // The most bytes that a line has, without its LF.
    ghost LIMIT: { ℕ };

    // When a line may be answered. Each answer keeps it.
    ghost ready: { Self.State → Type 0 };

    // From the first state the line may be answered by the text, which leaves the second.
    ghost answers: { Self.State → List ℕ → List ℕ → Self.State → Type 0 };

    /// The most bytes that a line has, without its LF. A longer one is answered by 29.
    const LIMIT: usize;

    /// What is kept before the first line. Each kind of lines tells what it costs.
    fn scratch(alloc: Global) -> Self::Scratch;

    /// Answers a line. An `Err` is for want of memory for the text, which a refusal's never lacks; what the line did stays.
    /// Each kind of lines tells what it costs.
    fn answer(
        alloc: Global,
        scratch: &mut Self::Scratch,
        state: &mut Self::State,
        line: &[u8],
    ) -> Result<ReplyLine, AllocError>
        requires { ready state.old }
        ensures ready { ready state.new }
        ensures answered { (text : List ℕ) × answers state.old line.now text state.new
            × MatchResult result (λ made. line_bytes made ≡ ended text) (λ _. TellsNoRefusal text) };

    // The limit is within what the engine's buffer takes.
    ghost fits: { LIMIT ≤ 65600 };

    // A line above the limit is refused, and changes nothing.
    ghost refuses_long: { (state : Self.State) (line : List ℕ) → LIMIT < length line → answers state line (text (No TooLong)) state };
}
