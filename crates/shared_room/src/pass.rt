//! What a thread carries to a shared room.
ghost use Rattle.std.specs.Prelude.{◌≡◌};

use crate::kept::KeptRoom;
use history_lock::Pass as LockPass;

/// The right to make a number of calls at one room, and what it has seen there. It is for one thread at a time and can
/// be split and joined. A pass that is let go takes its draws with it.
#[derive(Drop)]
pub struct Pass {
    pub(crate) pass: LockPass<KeptRoom>,
}

impl Pass {
    ghost use Rattle.shared_room.specs.Views.{left};

    /// How many calls it may still make. Constant time.
    pub fn left(&self) -> u64
        ensures { result ≡ left self.now }
    {
        self.pass.left()
    }
}
