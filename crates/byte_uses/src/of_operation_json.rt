//! An operation that is written, and read again.

use causal_clock::Op;
use operation_json::{read_op, read_value, write_op};
use opid::Refusal;
use std::alloc::Global;

/// An operation once more, read from the JSON that it is written as.
pub fn read_back(alloc: Global, op: &Op) -> Result<Op, Refusal> {
    let text = write_op(alloc, op)?;
    let value = read_value(alloc, text.as_bytes())?;
    read_op(&value)
}
