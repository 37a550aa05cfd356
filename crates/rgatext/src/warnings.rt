//! Warnings of a server that keeps its rooms: they wait for a thread that tells them, so that no turn and no connection waits for whoever
//! reads standard error.
use log::{Log, warn};
use std::alloc::{AllocError, Global};
use std::mem;
use std::sync::{Condvar, Mutex, Wait};
use std::time::{Clock, Duration, Instant};

// So many wait at most. Of what is warned of meanwhile it is only counted how much it is.
const MOST: usize = 64;

// What is told again and again is told after so many seconds.
const MINUTE: u64 = 60;

const HOUR: u64 = 3600;

/// When something was told that isn't told again for some time.
#[derive(Drop)]
pub(crate) struct Seldom {
    told: Option<Instant>,
    // How long it isn't told again, which doubles each time, up to the most.
    seconds: u64,
    most: u64,
}

impl Seldom {
    /// It wasn't told yet, and is told each minute.
    pub(crate) fn new() -> Seldom {
        Seldom::between(MINUTE, MINUTE)
    }

    /// The same, each hour.
    pub(crate) fn hourly() -> Seldom {
        Seldom::between(HOUR, HOUR)
    }

    /// The same, after five minutes, ten, and so on up to an hour.
    pub(crate) fn more_and_more() -> Seldom {
        Seldom::between(5 * MINUTE, HOUR)
    }

    fn between(seconds: u64, most: u64) -> Seldom {
        Seldom {
            told: None,
            seconds,
            most,
        }
    }

    /// Whether it is to be told now.
    pub(crate) fn is_due<R: Clock>(&mut self, rt: &R) -> bool {
        let is_due = match &self.told {
            Some(told) => match told.elapsed(rt) {
                Ok(time) => time >= Duration::from_secs(self.seconds),
                Err(_) => false,
            },
            None => true,
        };
        if is_due {
            // (it is told for the first time at once)
            if self.told.is_some() {
                self.seconds = self.seconds.saturating_mul(2).min(self.most);
            }
            self.told = Instant::now(rt).ok();
        }
        is_due
    }
}

// What is to be told, under the name of a module.
#[derive(Drop)]
struct Warning {
    target: &'static str,
    text: String,
}

#[derive(Drop)]
struct Queue {
    all: Vec<Warning>,
    // How many found no place.
    left_out: u64,
    is_ending: bool,
}

impl Queue {
    // Whether there was a place for it.
    fn add(&mut self, warning: Warning) -> bool {
        if self.all.len() >= MOST {
            return false;
        }
        self.all.push(warning).is_ok()
    }
}

/// What is to be warned of, in its order.
#[derive(Drop)]
pub(crate) struct Warnings {
    alloc: Global,
    queue: Mutex<Queue>,
    changed: Condvar,
}

impl Warnings {
    /// Nothing yet.
    pub(crate) fn new(alloc: Global) -> Warnings {
        Warnings {
            alloc,
            queue: Mutex::new(Queue {
                all: Vec::new(alloc),
                left_out: 0,
                is_ending: false,
            }),
            changed: Condvar::new(),
        }
    }

    /// Adds a text under the name of a module. Where too many wait, or there is no memory, it is left out, and counted.
    pub(crate) fn add<R: Wait>(
        &self,
        rt: &R,
        target: &'static str,
        text: Result<String, AllocError>,
    ) {
        let mut queue = self.queue.lock(rt);
        let is_added = match text {
            Ok(text) => queue.add(Warning { target, text }),
            Err(_) => false,
        };
        if !is_added {
            queue.left_out = queue.left_out.saturating_add(1);
        }
        drop(queue);
        self.changed.notify_all();
    }

    /// Nothing is added any more.
    pub(crate) fn end<R: Wait>(&self, rt: &R) {
        self.queue.lock(rt).is_ending = true;
        self.changed.notify_all();
    }

    /// Warns of what was added and is, until nothing is added any more.
    pub(crate) fn tell<R: Wait + Log>(&self, rt: &R) {
        for _ in rt.forever() {
            let queue = self.queue.lock(rt);
            let mut queue = self.changed.wait_while(rt, queue, |it| {
                it.all.is_empty() && it.left_out == 0 && !it.is_ending
            });
            let all = mem::replace(&mut queue.all, Vec::new(self.alloc));
            let left_out = queue.left_out;
            queue.left_out = 0;
            drop(queue);
            if all.is_empty() && left_out == 0 {
                return;
            }
            for it in &all {
                warn!(rt; target: it.target, "{}", it.text);
            }
            if left_out > 0 {
                warn!(rt; "{left_out} warnings were left out, since nobody read those before, or for want of memory");
            }
        }
    }
}
