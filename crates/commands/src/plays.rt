//! Runs a plan over a reader and a writer.
ghost use Rattle.std.specs.Prelude.{◌^◌, ◌<◌, ℕ, List, Result};
ghost use Rattle.std.specs.Io.KnownBytes.{Appends, Consumes};
ghost use Rattle.line_engine.specs.Counting.{Rises};
ghost use Rattle.commands.specs.Played.{served_end};
ghost use Rattle.commands.specs.Plays.{Plays, IsPlayed};

use crate::lines::play_lines;
use crate::stop::Stop;
use crate::text::play_text;
use crate::world::play_world;
use line_engine::{Counted, Source};
use plans::Plan;
use std::alloc::Global;
use std::io::Write;

/// Runs a plan other than `serve` from the reader to the writer, by its command: `lines` serves a room of its site, `text` prints
/// a reading, and `world` plays a script. Errors and costs are the command's.
pub fn play<R: Source, W: Write>(
    alloc: Global,
    plan: &Plan,
    input: &mut Counted<R>,
    output: &mut Counted<W>,
) -> Result<(), Stop>
    requires played { IsPlayed plan.now }
    requires few_reads_failed { input.old.failures < 2 ^ 63 }
    requires few_writes_failed { output.old.failures < 2 ^ 63 }
    ensures plays { (got : List ℕ) × (written : List ℕ)
        × Consumes (R.remaining input.old.inner) (R.remaining input.new.inner) got
        × Appends (W.contents output.old.inner) (W.contents output.new.inner) written
        × Plays plan.now got (R.remaining input.new.inner) written result }
    ensures counted { Rises input.old.failures input.new.failures output.old.failures output.new.failures (served_end result) }
{
    match *plan {
        Plan::Lines {
            site,
            resume,
            snapshot,
        } => play_lines(alloc, site, resume, snapshot, input, output),
        Plan::Text { version } => play_text(alloc, version, input, output),
        Plan::World { sites } => play_world(alloc, sites, input, output),
        Plan::Serve { .. } => unreachable!(),
    }
}
