//! A file as it is kept: what a read returns, and what a crash may leave.
ghost use Rattle.std.specs.Prelude.{◌≡◌, ◌≤◌, ◌++◌, List, ℕ, length, take, IfOk, IsOk, OnOk};
ghost use Rattle.keeper.specs.Disk.{Only, IsHeld, Follows, IsCut, IsTorn, Elapses, HasCause};

use std::alloc::Global;
use std::io;

/// A file on a disk, of which it is known what a crash may leave. Where nothing is known of it, it isn't honest, and no clause says
/// anything.
pub trait Disk: Drop {
    /// It does what the clauses say: a premise of each.
    ghost honest: { Self → Type 0 };

    /// Nobody else has changed it, as far as that is seen.
    ghost is_own: { Self → Type 0 };

    /// The bytes that a read returns.
    ghost seen: { Self → List ℕ };

    /// What a crash at this moment may leave.
    ghost may_leave: { Self → List ℕ → Type 0 };

    /// The bytes from here on were written since the last sync that failed: a sync that succeeds says something of them.
    ghost fresh: { Self → ℕ };

    /// The moment, as a number that doesn't fall.
    ghost moment: { Self → ℕ };

    /// What a crash at some moment from that one on might have left, during a call or between two.
    ghost left_since: { Self → ℕ → List ℕ → Type 0 };

    /// How often it has failed.
    ghost faults: { Self → ℕ };

    /// All the bytes.
    fn read(&mut self, alloc: Global) -> io::Result<Vec<u8>>
        ensures honest { honest self.old → honest self.new }
        ensures bytes { IfOk result (λ bytes. honest self.old → bytes.items ≡ seen self.old) }
        ensures seen { honest self.old → seen self.new ≡ seen self.old }
        ensures fresh { honest self.old → fresh self.new ≤ fresh self.old }
        ensures crash { honest self.old → (c : List ℕ) → may_leave self.new c → may_leave self.old c }
        ensures time { honest self.old
            → Elapses (moment self.old) (moment self.new) (left_since self.old) (left_since self.new) (may_leave self.new) }
        ensures cause { honest self.old → HasCause (faults self.old) (faults self.new) result };

    /// Whether nobody else has changed it. A file that is honest is nobody else's.
    fn check(&self) -> io::Result<()>
        ensures honest { honest self.now → IsOk result }
        ensures own { IfOk result (λ _. is_own self.now) };

    /// Cuts the file to a length that it has. Where that fails, these bytes are there all the same.
    fn cut(&mut self, len: u64) -> io::Result<()>
        ensures honest { honest self.old → honest self.new }
        ensures cut { OnOk result (honest self.old → len ≤ length (seen self.old)
            → (seen self.new ≡ take len (seen self.old)) × (fresh self.new ≤ len)) }
        ensures keeps { honest self.old → len ≤ length (seen self.old) → take len (seen self.new) ≡ take len (seen self.old) }
        ensures crash { honest self.old → Follows (IsCut len) (may_leave self.old) (may_leave self.new) }
        ensures time { honest self.old
            → Elapses (moment self.old) (moment self.new) (left_since self.old) (left_since self.new) (may_leave self.new) }
        ensures cause { honest self.old → HasCause (faults self.old) (faults self.new) result };

    /// Writes bytes behind those that are there. Where it fails, some of them may be written.
    fn append(&mut self, bytes: &[u8]) -> io::Result<()>
        ensures honest { honest self.old → honest self.new }
        ensures written { OnOk result (honest self.old → seen self.new ≡ seen self.old ++ bytes.now) }
        ensures keeps { honest self.old → (more : List ℕ) × (seen self.new ≡ seen self.old ++ more) }
        ensures fresh { honest self.old → fresh self.new ≤ fresh self.old }
        ensures crash { honest self.old → Only (seen self.old) (may_leave self.old)
            → (c : List ℕ) → may_leave self.new c → IsTorn (seen self.old) bytes.now c }
        ensures time { honest self.old
            → Elapses (moment self.old) (moment self.new) (left_since self.old) (left_since self.new) (may_leave self.new) }
        ensures cause { honest self.old → HasCause (faults self.old) (faults self.new) result };

    /// After it a crash leaves what a read returns, if it leaves what was there before the last sync that failed.
    fn sync(&mut self) -> io::Result<()>
        ensures honest { honest self.old → honest self.new }
        ensures durable { OnOk result (honest self.old → IsHeld (fresh self.old) (seen self.old) (may_leave self.old)
            → Only (seen self.old) (may_leave self.new) × (fresh self.new ≡ 0)) }
        ensures seen { honest self.old → seen self.new ≡ seen self.old }
        ensures crash { honest self.old → (c : List ℕ) → may_leave self.new c → may_leave self.old c }
        ensures time { honest self.old
            → Elapses (moment self.old) (moment self.new) (left_since self.old) (left_since self.new) (may_leave self.new) }
        ensures cause { honest self.old → HasCause (faults self.old) (faults self.new) result };

    /// This moment is one of those since an earlier one.
    ghost counts_now: { (file : Self) (t : ℕ) (c : List ℕ) → honest file → t ≤ moment file → may_leave file c → left_since file t c };

    /// Since this moment there is no other.
    ghost only_now: { (file : Self) (c : List ℕ) → honest file → left_since file (moment file) c → may_leave file c };
}
