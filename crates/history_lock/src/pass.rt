//! What a thread carries to the lock.
ghost use Rattle.std.specs.Prelude.{◌≡◌};
ghost use Rattle.history_lock.specs.Sights.{is_idle};

use crate::trailed::Trailed;
use atomic_table::Seat;
use std::collections::LinkedList;

/// Where a pass is in its turn.
pub enum Stage {
    /// It has no ticket, no hold and no peeked number.
    Idle,
    /// It has a ticket and waits for its turn.
    Waiting,
    /// It has the value.
    Inside,
    /// It has looked whose turn it is, and will try to draw that very ticket.
    Peeked,
}

/// What a pass knows. No value of it is made.
pub struct Sight<E> {
    /// Where it is in its turn.
    pub stage: Stage,
    /// How many tickets it may still draw.
    pub left: u64,
    /// The ticket that it drew last.
    pub drawn: u64,
    /// The number that it peeked last.
    pub peeked: u64,
    /// How many tries were lost through it, or through passes joined into it.
    pub lost: u64,
    /// How long the trail was when the lock was opened.
    pub opening: u64,
    /// The account of the finished turns, as far as it knows it: how long the trail was at the end of each.
    pub ends: LinkedList<u64>,
    /// The trail that it has seen.
    pub seen: LinkedList<E>,
    /// The trail that a joined pass had seen, until it has looked for itself.
    pub told: LinkedList<E>,
    /// The account that came with it.
    pub told_ends: LinkedList<u64>,
    /// The trail that its last turn found.
    pub found: LinkedList<E>,
    /// The entries that were added through it, or through passes joined into it.
    pub mine: LinkedList<E>,
}

/// The right to draw a number of tickets of one lock, and what it has seen there. It is for one thread at a time and
/// can be split and joined.
///
/// A pass that is let go takes its draws with it.
pub struct Pass<T: Trailed> {
    pub(crate) seat: Seat<Option<T>, Sight<T::Entry>>,
    pub(crate) left: u64,
    pub(crate) idle: bool,
    pub ghost left_is: { left ≡ seat.me.0.left },
    pub ghost idle_is: { idle ≡ is_idle seat.me.0.stage },
}

impl<T: Trailed> Pass<T> {
    ghost use Rattle.history_lock.specs.Locks.{sight};

    /// How many tickets it may still draw. Constant time.
    pub fn left(&self) -> u64
        ensures { result ≡ (sight self.now).left }
    {
        self.left
    }

    /// Whether it has neither a ticket nor a hold. Constant time.
    pub fn is_idle(&self) -> bool
        ensures { result ≡ is_idle (sight self.now).stage }
    {
        self.idle
    }

    pub(crate) fn into_parts(self) -> (Seat<Option<T>, Sight<T::Entry>>, u64)
        ensures { (result.0 ≡ self.seat) × (result.1 ≡ self.left) }
    {
        let Self {
            seat,
            left,
            idle: _,
        } = self;
        (seat, left)
    }
}

impl<T: Trailed> Drop for Pass<T> {
    /// Constant time; its draws go with it.
    fn drop(self) {
        let Pass {
            seat: _,
            left: _,
            idle: _,
        } = self;
    }
}
