//! Submissions: what the replica's own site asks for by a place in a version goes behind the whole log.
ghost use Rattle.std.specs.Prelude.{◌≡◌, ◌≤◌, ◌+◌, ◌-◌, ◌++◌, max, length, IfOk, IfErr, OnOk, OnErr};
ghost use Rattle.opid.specs.declared.refusal.Refusal.TheVariants.{Memory};
ghost use Rattle.opid.specs.Lawful.{IsLawful};

use crate::log::Log;
use causal_clock::Op;
use opid::{MAX_OPERATIONS, Refusal};

/// Appends operations that may follow the log, and tells the versions that they lead from and to. Refused with
/// `Memory`. Takes the steps of an append for each.
pub(crate) fn append_all(log: &mut Log, ops: &[Op]) -> Result<(u32, u32), Refusal>
    requires lawful { IsLawful (log.old.log ++ ops.now) }
    requires few { length log.old.log + length ops.now ≤ MAX_OPERATIONS }
    ensures reply { IfOk result (λ r. r ≡ (length log.old.log, length log.old.log + length ops.now)) }
    ensures grown { OnOk result (log.new ≡ record {
      log = log.old.log ++ ops.now;
      reserved =
          max log.old.reserved (length ops.now) - length ops.now;
    }) }
    ensures cause { IfErr result (λ e. e ≡ Memory) }
    ensures err { OnErr result (log.new ≡ log.old) }
{
    let from = log.doc().version();
    log.reserve(ops.len())?;
    append_each(log, ops);
    Ok((from, log.doc().version()))
}

// Appends operations that may follow the log, for which memory is reserved.
fn append_each(log: &mut Log, ops: &[Op])
    requires lawful { IsLawful (log.old.log ++ ops.now) }
    requires few { length log.old.log + length ops.now ≤ MAX_OPERATIONS }
    requires reserved { length ops.now ≤ log.old.reserved }
    ensures { log.new ≡ record { log = log.old.log ++ ops.now; reserved = log.old.reserved - length ops.now } }
{
    for op in ops {
        prove!(op.clock().entry(op.site()) > 0);
        match log.append(op) {
            Ok(()) => {}
            Err(_) => unreachable!(),
        }
    }
}
