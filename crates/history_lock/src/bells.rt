//! Where threads sleep until their turn comes nearer, and who wakes them. Tickets that are 64 apart share a bell, so
//! that a turn wakes one in 64 of those that sleep behind the first in line. Nothing here is a step of the lock.

use crate::lock::{NEXT, SERVED, Ticket, TicketLock};
use crate::trailed::Trailed;
use std::sync::Wait;
use std::sync::atomic::AtomicU64;
use std::sync::atomic::Ordering::SeqCst;

const COUNT: usize = 64;

/// How many threads have come to sleep at one place.
#[derive(Drop)]
pub(crate) struct Sleepers {
    count: AtomicU64,
}

impl Sleepers {
    pub fn new() -> Sleepers {
        Sleepers {
            count: AtomicU64::new(0),
        }
    }

    fn go(&self) {
        self.count.fetch_sub(1, SeqCst);
    }

    fn are_there(&self) -> bool {
        self.count.load(SeqCst) > 0
    }
}

/// How often it rang, and who sleeps beside it.
#[derive(Drop)]
pub(crate) struct Bell {
    rings: AtomicU64,
    sleepers: Sleepers,
}

impl Bell {
    fn ring(&self) {
        self.rings.fetch_add(1, SeqCst);
        if self.sleepers.are_there() {
            self.rings.wake_all();
        }
    }
}

/// The bells of a lock.
#[derive(Drop)]
pub(crate) struct Bells {
    bells: [Bell; COUNT],
}

impl Bells {
    pub fn new() -> Bells {
        Bells {
            bells: std::array::from_fn(|_| Bell {
                rings: AtomicU64::new(0),
                sleepers: Sleepers::new(),
            }),
        }
    }

    fn of(&self, ticket: u64) -> &Bell {
        &self.bells[(ticket % COUNT as u64) as usize]
    }
}

impl<T: Trailed> TicketLock<T> {
    // Comes to a place, and then looks whose turn it is. Who gives the turn on after that look finds that a thread
    // came, so no wake-up is lost; no thread with a ticket comes in another way.
    fn come(&self, sleepers: &Sleepers) -> u64 {
        sleepers.count.fetch_add(1, SeqCst);
        self.table.shared.peek(SERVED)
    }

    // The same at a bell, and first how often it has rung: a ring after the look is a later one.
    fn come_to(&self, bell: &Bell) -> (u32, u64) {
        let heard = (bell.rings.load(SeqCst) & 0xffff_ffff) as u32;
        (heard, self.come(&bell.sleepers))
    }

    // Sleeps until the number of the ticket that is served changes, unless it is this ticket's turn. It may return
    // early.
    pub(crate) fn sleep<R: Wait>(&self, rt: &R, ticket: &Ticket) {
        let served = self.come(&self.first);
        if ticket.number != served {
            self.table
                .shared
                .park(rt, SERVED, (served & 0xffff_ffff) as u32);
        }
        self.first.go();
    }

    // Sleeps until the ticket is the next in line, unless it is that or has its turn. It may return early.
    pub(crate) fn sleep_behind<R: Wait>(&self, rt: &R, ticket: &Ticket) {
        let bell = self.bells.of(ticket.number);
        let (heard, served) = self.come_to(bell);
        if ticket.number.wrapping_sub(served) > 1 {
            bell.rings.park(rt, heard);
        }
        bell.sleepers.go();
    }

    // Wakes who waits for this ticket's turn, which has come, and who is the next in line behind it; or, where nobody
    // has drawn it, one of those who wait without a ticket.
    pub(crate) fn wake(&self, ticket: u64) {
        let shared = &self.table.shared;
        // Who draws the ticket after this look at the word finds it served.
        if shared.peek(NEXT) == ticket {
            self.lobby.wake_one();
            return;
        }
        if self.first.are_there() {
            shared.wake_all(SERVED);
        }
        self.bells.of(ticket.wrapping_add(1)).ring();
    }
}
