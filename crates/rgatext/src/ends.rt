//! The connections that were accepted: how many count, and how they ended.
use line_engine::ServeFault;
use std::alloc::{AllocError, Global};
use std::net::{Shutdown, SocketAddr, TcpStream};
use std::sync::{Arc, Condvar, CondvarTimeouts, Mutex, Wait};
use std::time::{Clock, Duration};
use ws_server::ShownRoom;

/// How many connections are there, in all and in each room, and how many have ended with a fault.
#[derive(Drop)]
pub(crate) struct Count {
    pub(crate) there: u32,
    pub(crate) inside: Vec<u32>,
    pub(crate) faults: u64,
}

/// How many are let in.
#[derive(Clone, Copy)]
pub(crate) struct Limit {
    pub(crate) most: u32,
    /// So many at one time, and not in all.
    pub(crate) is_at_one_time: bool,
    /// One may be turned away, which doesn't count then.
    pub(crate) may_refuse: bool,
}

/// The stream of a connection, and which room it has opened.
#[derive(Drop)]
pub(crate) struct Guest {
    pub(crate) stream: TcpStream,
    pub(crate) shown: ShownRoom,
}

/// A connection: its guest while it is there, if it may be hung up, and the fault with which it ended, if one did.
#[derive(Drop)]
pub(crate) struct Connection {
    guest: Option<Arc<Guest, Global>>,
    pub(crate) end: Option<ServeFault>,
}

#[derive(Drop)]
struct Crowd {
    // In the order in which they were accepted, where no place is taken again.
    all: Vec<Connection>,
    // The places of those that count no more, which others take.
    free: Vec<usize>,
    // How many count, of how many it is open whether they do, and how many are there.
    counted: u32,
    undecided: u32,
    there: u32,
    // How many have ended with a fault.
    faults: u64,
    // One that came while nobody was let in any more, and from where.
    next: Option<(TcpStream, SocketAddr)>,
    // From where the one came that woke the listener, until it is met.
    waker: Option<SocketAddr>,
    is_ending: bool,
}

impl Crowd {
    // The one at a place is there no more. Where it doesn't count any more its place is free.
    fn leave(&mut self, place: usize, end: Option<ServeFault>, does_count: bool) {
        self.there = self.there.saturating_sub(1);
        if end.is_some() {
            self.faults = self.faults.saturating_add(1);
        }
        if let Some(it) = self.all.get_mut(place) {
            it.guest = None;
            it.end = end;
        }
        if !does_count {
            self.counted = self.counted.saturating_sub(1);
            // (where there is no memory for it the place stays empty)
            let _ = self.free.push(place);
        }
    }
}

/// The connections that were accepted.
#[derive(Drop)]
pub(crate) struct Connections {
    crowd: Mutex<Crowd>,
    changed: Condvar,
    limit: Limit,
}

impl Connections {
    /// None yet.
    pub(crate) fn new(alloc: Global, limit: Limit) -> Connections {
        Connections {
            crowd: Mutex::new(Crowd {
                all: Vec::new(alloc),
                free: Vec::new(alloc),
                counted: 0,
                undecided: 0,
                there: 0,
                faults: 0,
                next: None,
                waker: None,
                is_ending: false,
            }),
            changed: Condvar::new(),
            limit,
        }
    }

    /// Waits until one more may be let in: false where all were that may be, or the server ends.
    pub(crate) fn wait_for_place<R: Wait>(&self, rt: &R) -> bool {
        let Limit {
            most,
            is_at_one_time,
            may_refuse,
        } = self.limit;
        let crowd = self.crowd.lock(rt);
        let crowd = self.changed.wait_while(rt, crowd, |it| {
            let may_change = is_at_one_time || (may_refuse && it.undecided > 0);
            !it.is_ending && it.counted >= most && may_change
        });
        !crowd.is_ending && crowd.counted < most
    }

    /// Waits until one has ended, or the time is over.
    pub(crate) fn wait_for_change<R: Wait + Clock>(&self, rt: &R, time: Duration) {
        let crowd = self.crowd.lock(rt);
        let there = crowd.there;
        let (_, _) = self.changed.wait_timeout_while(rt, crowd, time, |it| {
            !it.is_ending && it.there >= there
        });
    }

    /// Adds one, whose guest is kept where it may be hung up: its place. Whether it counts is open until that is decided.
    pub(crate) fn add<R: Wait>(
        &self,
        rt: &R,
        guest: Option<Arc<Guest, Global>>,
    ) -> Result<usize, AllocError> {
        let mut crowd = self.crowd.lock(rt);
        let it = Connection { guest, end: None };
        let place = match crowd.free.pop() {
            Some(place) => {
                if let Some(free) = crowd.all.get_mut(place) {
                    *free = it;
                }
                place
            }
            None => {
                crowd.all.push(it)?;
                crowd.all.len() - 1
            }
        };
        crowd.counted = crowd.counted.saturating_add(1);
        crowd.undecided = crowd.undecided.saturating_add(1);
        crowd.there = crowd.there.saturating_add(1);
        Ok(place)
    }

    /// The one at some place counts.
    pub(crate) fn decide<R: Wait>(&self, rt: &R) {
        let mut crowd = self.crowd.lock(rt);
        crowd.undecided = crowd.undecided.saturating_sub(1);
        drop(crowd);
        self.changed.notify_all();
    }

    /// The one at a place doesn't count: it was never served.
    pub(crate) fn refuse<R: Wait>(&self, rt: &R, place: usize) {
        let mut crowd = self.crowd.lock(rt);
        crowd.undecided = crowd.undecided.saturating_sub(1);
        crowd.leave(place, None, false);
        drop(crowd);
        self.changed.notify_all();
    }

    /// The one at a place has ended so.
    pub(crate) fn end<R: Wait>(&self, rt: &R, place: usize, end: Option<ServeFault>) {
        let mut crowd = self.crowd.lock(rt);
        crowd.leave(place, end, !self.limit.is_at_one_time);
        drop(crowd);
        self.changed.notify_all();
    }

    /// Nobody else is let in.
    pub(crate) fn close<R: Wait>(&self, rt: &R) {
        self.crowd.lock(rt).is_ending = true;
        self.changed.notify_all();
    }

    /// Others are let in again.
    pub(crate) fn open_again<R: Wait>(&self, rt: &R) {
        self.crowd.lock(rt).is_ending = false;
    }

    /// One has come while nobody is let in any more: it is the next.
    pub(crate) fn put_off<R: Wait>(&self, rt: &R, stream: TcpStream, from: SocketAddr) {
        self.crowd.lock(rt).next = Some((stream, from));
    }

    /// The one that was put off, if one was.
    pub(crate) fn take_next<R: Wait>(&self, rt: &R) -> Option<(TcpStream, SocketAddr)> {
        self.crowd.lock(rt).next.take()
    }

    /// The one from here only wakes the listener.
    pub(crate) fn wake_from<R: Wait>(&self, rt: &R, from: SocketAddr) {
        self.crowd.lock(rt).waker = Some(from);
    }

    /// Whether the one from here only wakes the listener, which it does once.
    pub(crate) fn is_waker<R: Wait>(&self, rt: &R, from: SocketAddr) -> bool {
        let mut crowd = self.crowd.lock(rt);
        let is_waker = crowd.waker == Some(from);
        if is_waker {
            crowd.waker = None;
        }
        is_waker
    }

    /// Each one that is there gets nothing more from its other side, or neither side gets anything more.
    pub(crate) fn hang_up<R: Wait>(&self, rt: &R, how: Shutdown) {
        for it in self.crowd.lock(rt).all.iter() {
            if let Some(guest) = &it.guest {
                let _ = guest.stream.shutdown(how);
            }
        }
    }

    /// How many are there, in all and in each of so many rooms, and how many have ended with a fault.
    pub(crate) fn count<R: Wait>(
        &self,
        rt: &R,
        alloc: Global,
        rooms: usize,
    ) -> Result<Count, AllocError> {
        let mut inside = vec![in alloc; 0u32; rooms]?;
        let crowd = self.crowd.lock(rt);
        for it in crowd.all.iter() {
            let place = it.guest.as_ref().and_then(|guest| guest.shown.place());
            if let Some(count) = place.and_then(|place| inside.get_mut(place)) {
                *count = count.saturating_add(1);
            }
        }
        Ok(Count {
            there: crowd.there,
            inside,
            faults: crowd.faults,
        })
    }

    /// All of them, in the order in which they were accepted; none where places were taken again.
    pub(crate) fn into_all(self) -> Vec<Connection> {
        let Connections { crowd, limit, .. } = self;
        let mut crowd = crowd.into_inner();
        if limit.is_at_one_time {
            crowd.all.clear();
        }
        let Crowd { all, .. } = crowd;
        all
    }
}
