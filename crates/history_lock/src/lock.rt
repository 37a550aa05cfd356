//! The lock and what it hands out.
ghost use Rattle.std.specs.Prelude.{◌≡◌};

use crate::bells::{Bells, Sleepers};
use crate::lobby::Lobby;
use crate::pass::Sight;
use crate::plays::Served;
use crate::trailed::Trailed;
use atomic_table::Table;
use std::alloc::Global;
use std::snapshot::Snapshot;

// The word with the ticket that is drawn next.
pub(crate) const NEXT: usize = 0;

// The word with the ticket whose turn it is.
pub(crate) const SERVED: usize = 1;

/// A value that passes take in the order of their tickets. Threads share the lock by reference, and each brings its
/// pass.
///
/// The two words and the slot with the value stand under one rule. Sleepers, bells and the lobby are no part of it:
/// they say only who is to be woken.
#[derive(Drop)]
pub struct TicketLock<T: Trailed> {
    pub(crate) table: Table<Option<T>, Sight<T::Entry>, Snapshot<T>, Served, Global>,
    pub(crate) first: Sleepers,
    pub(crate) bells: Bells,
    pub(crate) lobby: Lobby,
    pub ghost two_words: { table.shared.table_id.words ≡ 2 },
    pub ghost one_slot: { table.shared.table_id.slots ≡ 1 },
}

/// The right to one turn. It has to be spent, by `enter`: a ticket that nobody spent would stop all later ones.
pub struct Ticket {
    pub(crate) number: u64,
}

/// The value, at a pass's turn. It has to be spent, by `leave`.
pub struct Hold<T> {
    /// The value, which the holder may change within what `leave` asks.
    pub value: T,
    pub(crate) turn: Ticket,
}

/// The pass has too few draws left.
#[derive(Drop)]
pub struct Worn;

/// Why a try gave no value.
#[derive(Drop)]
pub enum TryFault {
    /// A ticket was open, or one was drawn between the look and the try. The pass counts the lost try.
    Busy,
    /// The pass has no draw left. Nothing was tried.
    Worn,
}

impl<T> Hold<T> {
    ghost use Rattle.history_lock.specs.Locks.{ticket_of};

    /// The number of the turn: so many turns were finished before it. Constant time.
    pub fn ticket(&self) -> u64
        ensures { result ≡ ticket_of self.now }
    {
        self.turn.number
    }
}
