//! Runs `text`: the reading of a version of a snapshot's log.
ghost use Rattle.std.specs.Prelude.{◌≡◌, ◌⊎◌, ◌^◌, ◌<◌, ◌≤◌, ℕ, List, length, Some, unwrap_or, string_bytes, encode_utf8_all, IfOk, IfErr};
ghost use Rattle.opid.specs.Operations.{Operation};
ghost use Rattle.opid.specs.declared.refusal.Refusal.TheVariants.{BadSnapshot, BadVersion, Memory as NoMemory};
ghost use Rattle.line_engine.specs.Lines.{ended};
ghost use Rattle.std.specs.Io.KnownBytes.{Appends, Consumes};
ghost use Rattle.snapshot.specs.Snapshot.{StandsFor, StandsForNone};
ghost use Rattle.line_engine.specs.Counting.{Rises};
ghost use Rattle.commands.specs.Played.{PlaysText, reading_line, served_end};

use crate::sending::send;
use crate::stop::Stop;
use characters::Characters;
use line_engine::{Counted, ServeFault, Source, Window, whole_input};
use opid::Refusal;
use snapshot::load_doc;
use std::alloc::Global;
use std::io::Write;

/// Prints the reading of a version, the newest unless one is named, of the snapshot that the whole input is, and LF.
///
/// Refused with `BadSnapshot` where the input is none, and with `BadVersion` where the version is above the newest; else a
/// fault of a read, of the write or of memory. Takes time and memory in proportion to the input, which is in memory as a whole,
/// and so is the text, and the input's JSON value where `load_doc` needs it.
pub fn play_text<R: Source, W: Write>(
    alloc: Global,
    version: Option<u32>,
    input: &mut Counted<R>,
    output: &mut Counted<W>,
) -> Result<(), Stop>
    requires few_reads_failed { input.old.failures < 2 ^ 63 }
    requires few_writes_failed { output.old.failures < 2 ^ 63 }
    ensures plays { (got : List ℕ) × (written : List ℕ)
        × Consumes (R.remaining input.old.inner) (R.remaining input.new.inner) got
        × Appends (W.contents output.old.inner) (W.contents output.new.inner) written
        × PlaysText version got (R.remaining input.new.inner) written result }
    ensures counted { Rises input.old.failures input.new.failures output.old.failures output.new.failures (served_end result) }
{
    let Ok(mut window) = Window::new(alloc) else {
        return Err(Stop::Fault(ServeFault::Memory));
    };
    let bytes = match whole_input(alloc, &mut window, input) {
        Ok(bytes) => bytes,
        Err(why) => return Err(Stop::Fault(why)),
    };
    match text_of(alloc, &bytes, version) {
        Ok(line) => send(output, line.as_bytes()),
        Err(why) => Err(Stop::of(why)),
    }
}

// The line of the reading.
fn text_of(alloc: Global, bytes: &[u8], version: Option<u32>) -> Result<String, Refusal>
    ensures made { IfOk result (λ line. (log : List Operation) × StandsFor bytes.now log × (unwrap_or version (length log) ≤ length log)
        × (string_bytes line ≡ reading_line log (unwrap_or version (length log)))) }
    ensures cause { IfErr result (λ e. (e ≡ NoMemory) ⊎ ((e ≡ BadSnapshot) × StandsForNone bytes.now)
        ⊎ ((log : List Operation) × (v : ℕ) × (e ≡ BadVersion) × StandsFor bytes.now log × (version ≡ Some v) × (length log < v))) }
{
    let doc = load_doc(alloc, bytes)?;
    let version = match version {
        Some(version) => version,
        None => doc.version(),
    };
    let text = doc.reading(version)?;
    line_of(alloc, text)
}

// The text of characters with an LF.
fn line_of(alloc: Global, text: Characters) -> Result<String, Refusal>
    ensures made { IfOk result (λ line. string_bytes line ≡ ended (encode_utf8_all text)) }
    ensures cause { IfErr result (λ e. e ≡ NoMemory) }
{
    let mut line = String::from_str(alloc, text.as_str())?;
    line.push('\n')?;
    Ok(line)
}
