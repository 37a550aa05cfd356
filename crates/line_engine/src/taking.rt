//! Bytes of an input that are kept whole: its first line, of any length, or all of it.
ghost use Rattle.std.specs.Prelude.{◌≡◌, ◌^◌, ◌<◌, ℕ, List, [], ◌++◌, IfOk, IfErr};
ghost use Rattle.std.specs.Io.KnownBytes.{Consumes, IsAtEnd};
ghost use Rattle.line_engine.specs.Lines.{IsFirstLine};
ghost use Rattle.line_engine.specs.Counting.{Rises};

use crate::counted::Counted;
use crate::fault::ServeFault;
use crate::source::Source;
use crate::window::{Window, find_end};
use std::alloc::{AllocError, Global};

/// The first line of an input.
#[derive(Debug, Drop)]
pub struct FirstLine {
    /// Its bytes, without LF.
    pub bytes: Vec<u8>,
    /// Whether the input ended behind it, with no LF.
    pub is_last: bool,
}

/// The first line of what the window holds and the input gives, without its LF, of whatever length. What was read
/// behind it stays in the window. An input with no LF is one line.
///
/// Fails with `Read` or `Memory`. Takes time and memory in proportion to the line.
pub fn first_line<R: Source>(
    alloc: Global,
    window: &mut Window,
    input: &mut Counted<R>,
) -> Result<FirstLine, ServeFault>
    requires few_failed { input.old.failures < 2 ^ 63 }
    ensures first { (got : List ℕ) × Consumes (R.remaining input.old.inner) (R.remaining input.new.inner) got
        × IfOk result (λ line. IsFirstLine line.is_last (R.remaining input.new.inner) (window.old ++ got) line.bytes.items window.new) }
    ensures cause { IfErr result (λ why. ¬ (why ≡ ServeFault.Write)) }
    ensures counted { Rises input.old.failures input.new.failures 0 0 result }
{
    let mut line = Vec::new(alloc);
    'reading: loop {
        if let Some(at) = find_end(window.bytes(), 0) {
            let kept = keep(&mut line, &window.bytes()[..at]);
            window.advance(at + 1);
            return match kept {
                Ok(()) => Ok(FirstLine {
                    bytes: line,
                    is_last: false,
                }),
                Err(_) => Err(ServeFault::Memory),
            };
        }
        let Ok(()) = keep(&mut line, window.bytes()) else {
            return Err(ServeFault::Memory);
        };
        window.clear();
        match window.fill(input) {
            None => return Err(ServeFault::Read),
            Some(0) => {
                return Ok(FirstLine {
                    bytes: line,
                    is_last: true,
                });
            }
            Some(_) => {}
        }
    }
}

// Appends the bytes.
fn keep(line: &mut Vec<u8>, bytes: &[u8]) -> Result<(), AllocError>
    ensures { IfOk result (λ _. line.new.items ≡ line.old.items ++ bytes.now) }
{
    line.extend_from_slice(bytes)?;
    Ok(())
}

/// All bytes that the window holds and the input gives.
///
/// Fails with `Read` or `Memory`. Takes time and memory in proportion to the bytes.
pub fn whole_input<R: Source>(
    alloc: Global,
    window: &mut Window,
    input: &mut Counted<R>,
) -> Result<Vec<u8>, ServeFault>
    requires few_failed { input.old.failures < 2 ^ 63 }
    ensures whole { (got : List ℕ) × Consumes (R.remaining input.old.inner) (R.remaining input.new.inner) got
        × IfOk result (λ bytes. (bytes.items ≡ window.old ++ got) × IsAtEnd (R.remaining input.new.inner)) }
    ensures cause { IfErr result (λ why. ¬ (why ≡ ServeFault.Write)) }
    ensures counted { Rises input.old.failures input.new.failures 0 0 result }
{
    let mut bytes = Vec::new(alloc);
    'reading: loop {
        let Ok(()) = keep(&mut bytes, window.bytes()) else {
            return Err(ServeFault::Memory);
        };
        window.clear();
        match window.fill(input) {
            None => return Err(ServeFault::Read),
            Some(0) => return Ok(bytes),
            Some(_) => {}
        }
    }
}
