//! Drawing where no ticket is open, and waiting without a ticket until then. Waiting is no step of the lock.
ghost use Rattle.std.specs.Prelude.{◌≡◌, ◌+◌, ◌^◌, ◌≤◌, ◌↔◌, IfOk, IsErr, OnErr};
ghost use Rattle.history_lock.specs.Sights.{drew};
ghost use Rattle.history_lock.specs.Turns.{Grows};
ghost use Rattle.history_lock.specs.Locks.{sight, number_of, IsPassOf, IsIdle};

use crate::lock::{NEXT, SERVED, Ticket, TicketLock, Worn};
use crate::pass::Pass;
use crate::trailed::Trailed;
use std::hint::spin_loop;
use std::sync::Wait;
use std::sync::atomic::AtomicU64;
use std::sync::atomic::Ordering::SeqCst;

// How often a thread without a ticket looks before it sleeps.
const LOOKS_WITHOUT_TICKET: u32 = 16;

/// Where threads sleep that have no ticket. Its word is 1 while one is to be woken, and else 0.
#[derive(Drop)]
pub(crate) struct Lobby {
    wanted: AtomicU64,
}

impl Lobby {
    pub fn new() -> Lobby {
        Lobby {
            wanted: AtomicU64::new(0),
        }
    }

    // Has the next turn that ends with no ticket open wake one.
    fn want(&self) {
        self.wanted.store(1, SeqCst);
    }

    /// Wakes one, if that is wanted. Whoever is woken wants the next to be woken.
    pub fn wake_one(&self) {
        if self.wanted.load(SeqCst) == 1 && self.wanted.swap(0, SeqCst) == 1 {
            self.wanted.wake_one();
        }
    }
}

impl<T: Trailed> TicketLock<T> {
    // Whether no ticket is open. The ticket served at the first look is served still at the second if none is drawn by
    // then, since none is served that isn't drawn.
    fn is_free(&self) -> bool {
        let shared = &self.table.shared;
        let served = shared.peek(SERVED);
        shared.peek(NEXT) == served
    }

    /// Waits without a ticket until none is open, and then draws one as `draw` does, so that its turn mostly comes at
    /// once. Where others draw at the same moment, the order of tickets decides, as ever. No order is promised among
    /// those who wait: a thread that takes turn after turn may go before them. `Worn` where the pass has no draw
    /// left; it doesn't wait then.
    ///
    /// It looks 16 times, and then sleeps and costs no processor time. A turn that ends with no ticket open wakes one
    /// that sleeps here, unless one was woken and hasn't come to its turn yet; the turn that this one takes wakes the
    /// next. A thread that waits while a ticket of its own is open, drawn with another pass, sleeps for good. Takes no
    /// memory.
    pub fn draw_when_free<R: Wait>(&self, rt: &R, pass: &mut Pass<T>) -> Result<Ticket, Worn>
        requires pass { IsPassOf self.now pass.old }
        requires idle { IsIdle pass.old }
        ensures pass { IsPassOf self.now pass.new }
        ensures ok { IfOk result (λ t. sight pass.new ≡ drew (sight pass.old) (number_of t)) }
        ensures grows { Grows (sight pass.old) (sight pass.new) }
        ensures below { IfOk result (λ t. number_of t + (sight pass.old).left ≤ 2 ^ 62) }
        ensures worn { IsErr result ↔ ((sight pass.old).left ≡ 0) }
        ensures worn_same { OnErr result (sight pass.new ≡ sight pass.old) }
    {
        if pass.left > 0 {
            self.wait_until_free(rt);
        }
        self.draw(pass)
    }

    // Wants a wake and looks then, in this order: where a ticket is open at the look, its turn, or one behind it, ends later
    // and finds that a wake is wanted. So none is lost.
    fn want_and_look(&self) -> bool {
        self.lobby.want();
        self.is_free()
    }

    // Waits until no ticket is open, and draws none. Who was woken has the turn that it takes then wake the next; without
    // that turn others may sleep until somebody takes one.
    fn wait_until_free<R: Wait>(&self, rt: &R) {
        let mut woken = false;
        for _ in rt.forever() {
            for _ in 0..LOOKS_WITHOUT_TICKET {
                if self.is_free() {
                    if woken {
                        self.lobby.want();
                    }
                    return;
                }
                spin_loop();
            }
            if self.want_and_look() {
                return;
            }
            self.lobby.wanted.park(rt, 1);
            woken = true;
        }
    }
}
