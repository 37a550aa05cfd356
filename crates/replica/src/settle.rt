//! Settling: operations that were held back and have become ready go into the log, or are dropped.
ghost use Rattle.std.specs.Prelude.{◌≡◌, ◌<◌, ◌≤◌, ◌+◌, ◌-◌, ◌^◌, false, min, length};
ghost use Rattle.opid.specs.Lawful.{IsLawful};
ghost use Rattle.opid.specs.Delivered.{round, settle};
ghost use Rattle.replica.specs.Internal.Kept.{settling_of, HasReserved, start_of};

use crate::log::Log;
use holdback::Held;
use versions::MAX_OPERATIONS;

/// How many operations were integrated, and how many dropped.
#[derive(Clone, Copy, Debug)]
pub(crate) struct Tally {
    pub(crate) taken: u32,
    pub(crate) dropped: u32,
}

// One round: takes the first operation out of those held back that is ready, and appends it to the log or drops it.
// Says whether there was one. Takes the steps of `Held::take_first_ready`, beside those of one appended to the log.
fn round(log: &mut Log, held: &mut Held, tally: &mut Tally) -> bool
    requires enough { HasReserved (length held.old.ops) log.old }
    requires taken { tally.old.taken < 4294967295 }
    requires dropped { tally.old.dropped < 4294967295 }
    ensures next { settling_of log.new held.new tally.new ≡ round (settling_of log.old held.old tally.old) }
    ensures none { result ≡ false → settling_of log.new held.new tally.new ≡ settling_of log.old held.old tally.old }
    ensures enough { HasReserved (length held.new.ops) log.new }
    ensures less { log.new.reserved + tally.new.taken ≡ log.old.reserved + tally.old.taken }
    ensures longer { length log.new.log + tally.old.taken ≡ length log.old.log + tally.new.taken }
    ensures taken { tally.new.taken ≤ tally.old.taken + 1 }
    ensures dropped { tally.new.dropped ≤ tally.old.dropped + 1 }
    ensures held { held.new.reserved ≡ held.old.reserved }
    ensures lawful { IsLawful log.new.log }
{
    if log.doc().version() as usize >= MAX_OPERATIONS {
        return false;
    }
    match held.take_first_ready(log.doc().known()) {
        None => false,
        Some(op) => {
            match log.append(&op) {
                Ok(()) => tally.taken += 1,
                Err(_) => tally.dropped += 1,
            }
            true
        }
    }
}

/// Round after round, until none is left that is ready or the log is full. Counts an operation that was integrated
/// before. Takes one round for each operation that leaves what is held, and at most one more.
pub(crate) fn settle(log: &mut Log, held: &mut Held) -> Tally
    requires enough { HasReserved (length held.old.ops) log.old }
    requires lawful { IsLawful log.old.log }
    ensures settled { settling_of log.new held.new result ≡ settle (start_of log.old held.old) }
    ensures less { log.new.reserved + result.taken ≡ log.old.reserved + 1 }
    ensures longer { length log.new.log + 1 ≡ length log.old.log + result.taken }
    ensures held { held.new.reserved ≡ held.old.reserved }
    ensures lawful { IsLawful log.new.log }
{
    let mut tally = Tally {
        taken: 1,
        dropped: 0,
    };
    'rounds: for _i in 0..held.len() {
        if !round(log, held, &mut tally) {
            return tally;
        }
    }
    tally
}
