//! Writes a text that ends a run.
ghost use Rattle.std.specs.Prelude.{◌^◌, ◌<◌, ℕ, List};
ghost use Rattle.std.specs.Io.KnownBytes.{Appends};
ghost use Rattle.line_engine.specs.Counting.{Rises};
ghost use Rattle.commands.specs.Played.{Writes, served_end};

use crate::stop::Stop;
use line_engine::{Counted, ServeFault};
use std::io::Write;

/// Writes the bytes, in one call where the writer takes them whole.
pub(crate) fn send<W: Write>(output: &mut Counted<W>, bytes: &[u8]) -> Result<(), Stop>
    requires few_failed { output.old.failures < 2 ^ 63 }
    ensures written { (written : List ℕ) × Appends (W.contents output.old.inner) (W.contents output.new.inner) written
        × Writes bytes.now written result }
    ensures counted { Rises 0 0 output.old.failures output.new.failures (served_end result) }
{
    if output.write_all(bytes) {
        Ok(())
    } else {
        Err(Stop::Fault(ServeFault::Write))
    }
}
