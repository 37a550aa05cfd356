//! The text of an answer's line, which is the line less its LF, as a message has it.
ghost use Rattle.std.specs.Prelude.{◌≡◌, ℕ, List, IfOk, IsOk, string_bytes};
ghost use Rattle.line_engine.specs.LineBytes.{line_bytes, IsFixed};
ghost use Rattle.line_engine.specs.Lines.{ended};

use line_engine::ReplyLine;
use std::alloc::{AllocError, Global};
use tungstenite::Utf8Bytes;

/// The text of an answer's line as a string, for which a fixed one is copied. An error is for want of memory.
pub(crate) fn text_of(alloc: Global, line: ReplyLine) -> Result<String, AllocError>
    requires { (answer : List ℕ) × (line_bytes line ≡ ended answer) }
    ensures { (answer : List ℕ) → line_bytes line ≡ ended answer → IfOk result (λ made. string_bytes made ≡ answer) }
{
    match line {
        ReplyLine::Made(line) => Ok(made_text(line)),
        ReplyLine::Fixed(line) => String::from_str(alloc, fixed_text(line)),
    }
}

/// The text of an answer's line as that of a message. No byte is copied. An error is for want of memory, which a fixed line doesn't
/// need.
pub(crate) fn message_text_of(line: ReplyLine) -> Result<Utf8Bytes, AllocError>
    requires { (answer : List ℕ) × (line_bytes line ≡ ended answer) }
    ensures text { (answer : List ℕ) → line_bytes line ≡ ended answer → IfOk result (λ made. made ≡ answer) }
    ensures fixed { IsFixed line → IsOk result }
{
    match line {
        ReplyLine::Made(line) => Utf8Bytes::from_string(made_text(line)),
        ReplyLine::Fixed(line) => Ok(Utf8Bytes::from_static(fixed_text(line))),
    }
}

// A line that was made, less its LF.
fn made_text(mut line: String) -> String
    requires { (answer : List ℕ) × (string_bytes line ≡ ended answer) }
    ensures { (answer : List ℕ) → string_bytes line ≡ ended answer → string_bytes result ≡ answer }
{
    let _ = line.pop();
    line
}

// A fixed line, less its LF.
fn fixed_text(line: &'static str) -> &'static str
    requires { (answer : List ℕ) × (line.now ≡ ended answer) }
    ensures { (answer : List ℕ) → line.now ≡ ended answer → result.now ≡ answer }
{
    &line[..line.len() - 1]
}
