//! Writing lines of a journal.
ghost use Rattle.std.specs.Prelude.{◌≡◌, ◌≤◌, ◌+◌, ◌++◌, ℕ, List, length, IfOk, IfErr, OnOk, string_bytes};
ghost use Rattle.opid.specs.declared.refusal.Refusal.TheVariants.{Memory};
ghost use Rattle.room_model.specs.declared.reply.Reply.TheVariants.{Ops};
ghost use Rattle.wire_json.specs.Text.{IsInRange, text};
ghost use Rattle.sha2.specs.Hashers.{Holds256};
ghost use Rattle.journal.specs.Journal.{AreLinesOf, part_lines, with_end};

use crate::digest::digest_line;
use causal_clock::Op;
use opid::{MAX_COUNT, MAX_OPERATIONS, Refusal};
use room_model::{Operations, Reply};
use sha2::{Digest, Sha256};
use std::alloc::{AllocError, Global};
use wire_json::write_reply;

// The most operations that a part has.
const MAX_PART: usize = MAX_COUNT as usize;

/// Lines of a journal.
#[derive(Drop)]
pub struct Lines {
    /// Their text.
    pub text: String,
    /// What stands before them, and they, as it was hashed.
    pub digest: Sha256,
}

/// The lines that tell operations of a log behind bytes that were hashed, of which the first has the number `from`: a part for each 64
/// operations, and one for those that are left. Each is the text of an `ops` reply, and behind it the digest of all bytes up to there, both
/// ended by LF; no operations have no line. Appended to a journal of the log's first `from` operations, they are a journal of the log with
/// these.
///
/// Refused with `Memory`. Takes time and memory in proportion to the lines.
pub fn write_lines(alloc: Global, before: &Sha256, from: u32, ops: &[Op]) -> Result<Lines, Refusal>
    requires { from + length ops.now ≤ MAX_OPERATIONS }
    ensures lines { IfOk result (λ it. (bytes : List ℕ) → Holds256 before.now bytes
        → AreLinesOf bytes from ops.now (string_bytes it.text)) }
    ensures digest { IfOk result (λ it. (bytes : List ℕ) → Holds256 before.now bytes
        → Holds256 it.digest (bytes ++ string_bytes it.text)) }
    ensures memory { IfErr result (λ e. e ≡ Memory) }
{
    let mut lines = Lines {
        text: String::new(alloc),
        digest: before.clone()?,
    };
    let mut at = 0;
    'parts: while at < ops.len() {
        let end = ops.len().min(at + MAX_PART);
        lines.add_part(alloc, from + at as u32, &ops[at..end])?;
        at = end;
    }
    Ok(lines)
}

impl Lines {
    // Adds the lines of a part.
    fn add_part(&mut self, alloc: Global, from: u32, part: &[Op]) -> Result<(), Refusal>
        ensures text { OnOk result ((bytes : List ℕ) → Holds256 self.old.digest bytes
            → string_bytes self.new.text ≡ string_bytes self.old.text ++ part_lines bytes from part.now) }
        ensures digest { OnOk result ((bytes : List ℕ) → Holds256 self.old.digest bytes
            → Holds256 self.new.digest (bytes ++ part_lines bytes from part.now)) }
        ensures in_range { OnOk result (IsInRange (Ops from part.now)) }
        ensures memory { IfErr result (λ e. e ≡ Memory) }
    {
        let told = part_text(alloc, from, part)?;
        self.add(told.as_str())?;
        let digest = digest_line(alloc, &self.digest)?;
        self.add(digest.as_str())?;
        Ok(())
    }

    // Adds a line.
    fn add(&mut self, line: &str) -> Result<(), AllocError>
        ensures text { OnOk result (string_bytes self.new.text ≡ string_bytes self.old.text ++ with_end line.now) }
        ensures digest { OnOk result ((bytes : List ℕ) → Holds256 self.old.digest bytes
            → Holds256 self.new.digest (bytes ++ with_end line.now)) }
    {
        self.text.push_str(line)?;
        self.text.push_str("\n")?;
        self.digest.update(line);
        self.digest.update("\n");
        Ok(())
    }
}

// The text of a part.
fn part_text(alloc: Global, from: u32, part: &[Op]) -> Result<String, Refusal>
    ensures text { IfOk result (λ told. string_bytes told ≡ text (Ops from part.now)) }
    ensures in_range { IfOk result (λ told. IsInRange (Ops from part.now)) }
    ensures memory { IfErr result (λ e. e ≡ Memory) }
{
    let ops = Operations::new(Vec::from_slice(alloc, part)?);
    write_reply(alloc, &Reply::Ops { from, ops })
}
