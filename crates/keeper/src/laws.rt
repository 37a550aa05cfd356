//! Laws of keeping: each is the contract of a function that does nothing, so that it is proved with the crate.
ghost use Rattle.std.specs.Prelude.{◌≡◌, ◌≤◌, ◌++◌, ℕ, List, length, take};
ghost use Rattle.opid.specs.Operations.{Operation};
ghost use Rattle.opid.specs.Lawful.{IsLawful};
ghost use Rattle.journal.specs.Journal.{StandsFor};
ghost use Rattle.keeper.specs.Disk.{LeavesOnly};
ghost use Rattle.keeper.specs.Turn.{OpensAs, StaysWhole, Tears, StaysCut};
ghost use Rattle.keeper.specs.Kept.{Keeps};
ghost use Rattle.keeper.specs.declared.kept.KeptFile.{KeptFile};

use crate::disk::Disk;
use opid::MAX_OPERATIONS;

/// Whole lines stand for the first operations of a log, and the lines of the others are appended to them: then all stand for the log, and
/// are whole lines. Where a crash tears that, or a cut, what is left opens as a beginning of the log with the first operations.
pub fn turns()
    ensures grows { StaysWhole }
    ensures tears { Tears }
    ensures cut { StaysCut }
{}

/// What opens as a beginning of the log, with at least so many operations, and stands for some log, stands for such a beginning.
pub fn opened_again()
    ensures { (least : ℕ) (log found : List Operation) (bytes : List ℕ) → OpensAs least log bytes → StandsFor bytes found
        → (least ≤ length found) × (found ≡ take (length found) log) }
{}

/// Where a log has grown, what was kept of it is kept of the longer one: so each turn can begin where the one before ended.
pub fn grows_with_its_log<D: Disk>()
    ensures { (file : KeptFile D) (log more : List Operation) → Keeps D.honest D.seen D.may_leave D.fresh file log → IsLawful (log ++ more)
        → length (log ++ more) ≤ MAX_OPERATIONS → Keeps D.honest D.seen D.may_leave D.fresh file (log ++ more) }
{}

/// A crash at any moment of turns that follow one another leaves a beginning of the log that has grown meanwhile, with what was kept before
/// the first: so it is before the first turn, and with each one more.
pub fn turns_follow<D: Disk>()
    ensures none { (file : KeptFile D) (log : List Operation) → Keeps D.honest D.seen D.may_leave D.fresh file log
        → LeavesOnly D.moment D.left_since file.disk file.disk (OpensAs file.mark.version log) }
    ensures more { (old mid new : D) (least next : ℕ) (log more : List Operation)
        → LeavesOnly D.moment D.left_since old mid (OpensAs least log)
        → LeavesOnly D.moment D.left_since mid new (OpensAs next (log ++ more)) → least ≤ next
        → LeavesOnly D.moment D.left_since old new (OpensAs least (log ++ more)) }
{}
