//! An operation of a log by its place, where nobody counts what is read.
ghost use Rattle.std.specs.Prelude.{◌≡◌, ◌<◌, length, slice_get, Some};

use causal_clock::{Op, OpLog, Reads};
use std::marker::Brand;
use std::sync::ledger::{Blank, Ledger};

/// The operation at the place.
pub(crate) fn read_op(log: &OpLog, i: usize) -> Op
    requires { i < length log.now.ops }
    ensures { slice_get log.now.ops i ≡ Some result }
{
    read_over::<Brand>(log, i, Blank::new(1))
}

// As `read_op`, over the ledger of a blank.
fn read_over<L: Ledger>(log: &OpLog, i: usize, blank: Blank) -> Op
    requires place { i < length log.now.ops }
    requires name { blank.name ≡ L.name }
    requires parts { blank.parts ≡ L.parts }
    requires some { 0 < L.parts }
    ensures { slice_get log.now.ops i ≡ Some result }
{
    log.get(i, &mut Reads::<L>::new(blank))
}
