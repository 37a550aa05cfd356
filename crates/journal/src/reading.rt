//! Reading a journal: the log that its lines tell, as a document.
ghost use Rattle.std.specs.Prelude.{◌≡◌, ◌≤◌, ◌<◌, ◌+◌, ◌++◌, ◌∷◌, ◌⊎◌, ℕ, Ok, List, length, take, drop, IfOk, IfErr, OnOk, MatchOption};
ghost use Rattle.opid.specs.declared.refusal.Refusal.TheVariants as refusals;
ghost use Rattle.opid.specs.Operations.{Operation};
ghost use Rattle.opid.specs.Lawful.{IsLawful, GoesOn};
ghost use Rattle.journal.specs.declared.fault.JournalFault.TheVariants.{Memory};
ghost use Rattle.sha2.specs.Hashers.{Holds256};
ghost use Rattle.wire_json.specs.Line.{IsLine};
ghost use Rattle.journal.specs.Journal.{EndsLines, StandsFor, StandsForNone, IsFaultOf, line_told, next_part};

use crate::digest::{START, digest_line};
use crate::fault::JournalFault;
use memchr::memchr;
use opid::{MAX_OPERATIONS, Refusal};
use sha2::{Digest, Sha256};
use snapshot::append_operations;
use std::alloc::Global;
use versions::Doc;
use wire_json::read_part;

/// A journal that was read.
#[derive(Drop)]
pub struct Journal {
    /// The document of the log that its lines tell.
    pub doc: Doc,
    /// How many bytes its whole lines take. What stands behind them is a line that was cut short.
    pub length: usize,
    /// These bytes, as they were hashed.
    pub digest: Sha256,
}

/// The document of the log that the lines of the bytes tell, and how many bytes these take. A last line that no LF ends was cut
/// short, and is left out.
///
/// Refused with the number of the first line that neither tells the digest of all bytes before it, nor a part, from the next operation's
/// number on, of which each operation may follow those before it, or with which there are more than 131,072; and with `Memory` in the place
/// of any answer. Takes time in proportion to the bytes, and the steps of `Doc::integrate` for each operation; memory for the document, and
/// for one line at a time.
pub fn read_journal(alloc: Global, bytes: &[u8]) -> Result<Journal, JournalFault>
    ensures stands { IfOk result (λ j. StandsFor bytes.now j.doc.log) }
    ensures unreserved { IfOk result (λ j. j.doc.reserved ≡ 0) }
    ensures ends { IfOk result (λ j. EndsLines j.length bytes.now) }
    ensures digest { IfOk result (λ j. Holds256 j.digest (take j.length bytes.now)) }
    ensures cause { IfErr result (λ e. (e ≡ Memory) ⊎ StandsForNone bytes.now) }
    ensures fault { IfErr result (λ e. IsFaultOf bytes.now e) }
{
    let mut doc = Doc::new(alloc);
    let mut digest = Sha256::new();
    let mut at = 0;
    let mut lines = 0;
    'each_line: while let Some(len) = line_end(&bytes[at..]) {
        lines += 1;
        match append_line(alloc, &mut doc, &digest, &bytes[at..at + len]) {
            Ok(()) => {}
            Err(Refusal::Memory) => return Err(JournalFault::Memory),
            Err(_) => return Err(JournalFault::Line(lines)),
        }
        digest.update(&bytes[at..at + len + 1]);
        at += len + 1;
    }
    Ok(Journal {
        doc,
        length: at,
        digest,
    })
}

// How many bytes stand before the first LF.
fn line_end(bytes: &[u8]) -> Option<usize>
    ensures { MatchOption result (IsLine bytes.now) (λ at. (at < length bytes.now) × IsLine (take at bytes.now)
        × (bytes.now ≡ take at bytes.now ++ 10 ∷ drop (at + 1) bytes.now)) }
{
    memchr(b'\n', bytes)
}

// Appends the operations that a line tells behind the bytes that were hashed, which are to be the next of the log.
fn append_line(alloc: Global, doc: &mut Doc, before: &Sha256, line: &[u8]) -> Result<(), Refusal>
    ensures grown { OnOk result ((bytes : List ℕ) → Holds256 before.now bytes → (ops : List Operation)
        × (line_told bytes (length doc.old.log) line.now ≡ Ok ops) × (doc.new.log ≡ doc.old.log ++ ops)) }
    ensures lawful { OnOk result (IsLawful doc.old.log → IsLawful doc.new.log) }
    ensures few { OnOk result (length doc.old.log ≤ MAX_OPERATIONS → length doc.new.log ≤ MAX_OPERATIONS) }
    ensures unreserved { OnOk result (doc.old.reserved ≡ 0 → doc.new.reserved ≡ 0) }
    ensures cause { IfErr result (λ e. (e ≡ refusals.Memory) ⊎ ((bytes : List ℕ) → Holds256 before.now bytes → (ops : List Operation)
        → line_told bytes (length doc.old.log) line.now ≡ Ok ops
        → GoesOn doc.old.log ops → length doc.old.log + length ops ≤ MAX_OPERATIONS → ⊥)) }
{
    if line.starts_with(START.as_bytes()) {
        return match digest_line(alloc, before) {
            Ok(digest) if line == digest.as_bytes() => Ok(()),
            Ok(_) => append_part(alloc, doc, line),
            Err(_) => Err(Refusal::Memory),
        };
    }
    append_part(alloc, doc, line)
}

// Appends the operations of the part that a line tells, which are to be the next of the log.
fn append_part(alloc: Global, doc: &mut Doc, line: &[u8]) -> Result<(), Refusal>
    ensures grown { OnOk result ((ops : List Operation) × (next_part (length doc.old.log) line.now ≡ Ok ops)
        × (doc.new.log ≡ doc.old.log ++ ops)) }
    ensures lawful { OnOk result (IsLawful doc.new.log) }
    ensures few { OnOk result (length doc.new.log ≤ MAX_OPERATIONS) }
    ensures unreserved { OnOk result (doc.old.reserved ≡ 0 → doc.new.reserved ≡ 0) }
    ensures cause { IfErr result (λ e. (e ≡ refusals.Memory) ⊎ ((ops : List Operation)
        → next_part (length doc.old.log) line.now ≡ Ok ops
        → GoesOn doc.old.log ops → length doc.old.log + length ops ≤ MAX_OPERATIONS → ⊥)) }
{
    let (from, ops) = read_part(alloc, line)?;
    if from != doc.version() {
        return Err(Refusal::BadField);
    }
    append_operations(doc, ops.as_slice())?;
    prove!(doc.version() as usize <= MAX_OPERATIONS);
    Ok(())
}
