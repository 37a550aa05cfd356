//! What a room answers.

use crate::edits::Edits;
use crate::operations::Operations;
use crate::outcomes::Outcomes;
use characters::Characters;
use opid::Refusal;

/// The answer to a call.
#[derive(Debug, Drop)]
pub enum Reply {
    /// Session `s` was opened at version `v`, which reads `x`.
    Joined { s: u32, v: u32, x: Characters },
    /// The submission's operations lead from version `from` to version `to`.
    Ok { from: u32, to: u32 },
    /// The edits that lead on from version `from`, one for each version.
    Edits { from: u32, es: Edits },
    /// The session was ended.
    Left,
    /// The operations of the log from number `from` on.
    Ops { from: u32, ops: Operations },
    /// What became of each operation that was handed over, in their order.
    Put(Outcomes),
    /// The newest version is `v`, and reads `x`.
    Text { v: u32, x: Characters },
    /// The call was refused, and changed nothing but that it was recorded. With `HistoryFull` it wasn't recorded either.
    No(Refusal),
}
