//! The jobs that users wait for, each a list of runs over inputs of its own.
use crate::dice::Dice;
use crate::handing::{Order, Requests};
use crate::log_text::{LogText, Manner};
use crate::plays::Tally;
use crate::typing::{Habits, Script};
use crate::worlds::World;
use snapshot::load_doc;
use std::alloc::{AllocError, Global};

/// A job's name, how large it is in hundredths of what is timed, and the seed of its inputs.
#[derive(Clone, Copy)]
pub(crate) struct Plan {
    pub(crate) percent: u32,
    pub(crate) seed: u64,
}

/// The jobs.
#[derive(Clone, Copy, PartialEq, Eq)]
pub(crate) enum Job {
    Typing,
    Opening,
    CatchingUp,
    OutOfOrder,
    Worlds,
    Reading,
}

/// All jobs.
pub(crate) const JOBS: [Job; 6] = [
    Job::Typing,
    Job::Opening,
    Job::CatchingUp,
    Job::OutOfOrder,
    Job::Worlds,
    Job::Reading,
];

impl Job {
    /// Its name on the command line.
    pub(crate) fn name(self) -> &'static str {
        match self {
            Job::Typing => "typing",
            Job::Opening => "opening",
            Job::CatchingUp => "catching_up",
            Job::OutOfOrder => "out_of_order",
            Job::Worlds => "worlds",
            Job::Reading => "reading",
        }
    }

    /// Runs it.
    pub(crate) fn run(self, alloc: Global, plan: Plan) -> Result<Tally, AllocError> {
        let mut tally = Tally::new(alloc);
        match self {
            Job::Typing => typing(alloc, plan, &mut tally)?,
            Job::Opening => opening(alloc, plan, &mut tally)?,
            Job::CatchingUp => catching_up(alloc, plan, &mut tally)?,
            Job::OutOfOrder => out_of_order(alloc, plan, &mut tally)?,
            Job::Worlds => worlds(alloc, plan, &mut tally)?,
            Job::Reading => reading(alloc, plan, &mut tally)?,
        }
        Ok(tally)
    }
}

impl Plan {
    // So many, or the plan's share of it.
    fn of(self, count: u32) -> u32 {
        let share = u64::from(count) * u64::from(self.percent) / 100;
        u32::try_from(share).unwrap_or(count).max(1)
    }

    // A seed of its own for each part.
    fn seed(self, part: u64) -> u64 {
        self.seed.wrapping_mul(64).wrapping_add(part)
    }
}

const TYPING: Habits = Habits {
    sessions: 1,
    operations: 60_000,
    jumps: 40,
    backspaces: 8,
    ranges: 300,
    pulls: 8,
    pairs: false,
};

// Editors of a room: one alone; two at random places, some hundred versions behind; nineteen at their cursors, in a room
// that gets full; six of which three count UTF-16 units, in a text of pairs; and one who pastes and deletes ranges. In each room
// one more wakes up at the end.
fn typing(alloc: Global, plan: Plan, tally: &mut Tally) -> Result<(), AllocError> {
    let rooms = [
        TYPING,
        Habits {
            sessions: 3,
            jumps: 1,
            pulls: 200,
            ..TYPING
        },
        Habits {
            sessions: 20,
            operations: 128_000,
            ..TYPING
        },
        Habits {
            sessions: 7,
            operations: 40_000,
            pairs: true,
            ..TYPING
        },
        Habits {
            operations: 100_000,
            jumps: 2,
            ranges: 2,
            ..TYPING
        },
    ];
    for (part, habits) in rooms.iter().enumerate() {
        let habits = Habits {
            operations: plan.of(habits.operations),
            ..*habits
        };
        let mut script = Script::new(alloc, habits, plan.seed(part as u64))?;
        script.write_all()?;
        tally.lines(0, false, false, script.as_bytes());
    }
    Ok(())
}

const LOG: Manner = Manner {
    sites: 1,
    operations: 20_000,
    most: 30,
    goes_on: true,
    deletes: 0,
    packs: true,
};

const MANY: Manner = Manner {
    sites: 31,
    most: 12,
    goes_on: false,
    deletes: 6,
    ..LOG
};

// Kept documents of five kinds, in both formats where both are read, opened by `text`, by `text --version` and by
// `lines --resume --snapshot`, each with a document of its own.
fn opening(alloc: Global, plan: Plan, tally: &mut Tally) -> Result<(), AllocError> {
    let kinds = [
        (
            1,
            Manner {
                packs: false,
                operations: 30_000,
                ..LOG
            },
        ),
        (
            2,
            Manner {
                most: 1,
                goes_on: false,
                ..LOG
            },
        ),
        (
            2,
            Manner {
                operations: 120_000,
                most: 64,
                goes_on: false,
                deletes: 20,
                ..LOG
            },
        ),
        (
            1,
            Manner {
                packs: false,
                operations: 12_000,
                ..MANY
            },
        ),
        (
            2,
            Manner {
                operations: 40_000,
                ..MANY
            },
        ),
    ];
    for (part, (format, manner)) in kinds.iter().enumerate() {
        for way in 0..3u64 {
            let manner = Manner {
                operations: plan.of(manner.operations),
                ..*manner
            };
            let seed = plan.seed((part as u64).wrapping_mul(3).wrapping_add(way));
            let log = LogText::new(alloc, manner, seed)?;
            let mut text = log.snapshot(alloc, *format)?;
            match way {
                0 => tally.text(None, text.as_str().as_bytes()),
                1 => tally.text(Some(log.version() / 2), text.as_str().as_bytes()),
                _ => {
                    text.push_str("\n{\"t\":\"join\"}\n")?;
                    tally.lines(31, true, true, text.as_str().as_bytes());
                }
            }
        }
    }
    Ok(())
}

// Servers that get the operations of others in order, of one site's long runs and of 31 sites, as runs and one by one, and
// from which two new servers then read all.
fn catching_up(alloc: Global, plan: Plan, tally: &mut Tally) -> Result<(), AllocError> {
    let kinds = [
        Manner {
            operations: 100_000,
            most: 64,
            ..LOG
        },
        Manner {
            operations: 30_000,
            packs: false,
            ..LOG
        },
        Manner {
            operations: 60_000,
            ..MANY
        },
        Manner {
            operations: 30_000,
            packs: false,
            ..MANY
        },
    ];
    for (part, manner) in kinds.iter().enumerate() {
        let manner = Manner {
            operations: plan.of(manner.operations),
            ..*manner
        };
        let seed = plan.seed(part as u64);
        let log = LogText::new(alloc, manner, seed)?;
        let mut requests = Requests::new(alloc);
        requests.put_all(alloc, &log, Order::Log, &mut Dice::new(seed))?;
        requests.read_all(log.version(), 64)?;
        requests.read_all(log.version(), 50)?;
        tally.lines(31, false, false, requests.as_bytes());
    }
    Ok(())
}

// The same with operations that come late, twice, or the last first.
fn out_of_order(alloc: Global, plan: Plan, tally: &mut Tally) -> Result<(), AllocError> {
    let one = Manner {
        packs: false,
        operations: 40_000,
        ..LOG
    };
    let many = Manner {
        packs: false,
        operations: 24_000,
        ..MANY
    };
    let kinds = [
        (Order::Reversed(1_024), one),
        (
            Order::Reversed(300),
            Manner {
                goes_on: false,
                most: 3,
                ..one
            },
        ),
        (Order::Shuffled(256), many),
        (Order::Shuffled(512), many),
    ];
    for (part, (order, manner)) in kinds.iter().enumerate() {
        let manner = Manner {
            operations: plan.of(manner.operations),
            ..*manner
        };
        let seed = plan.seed(part as u64);
        let log = LogText::new(alloc, manner, seed)?;
        let mut requests = Requests::new(alloc);
        requests.put_all(alloc, &log, *order, &mut Dice::new(seed))?;
        tally.lines(31, false, false, requests.as_bytes());
    }
    Ok(())
}

// Worlds of 3, 8 and 32 sites.
fn worlds(alloc: Global, plan: Plan, tally: &mut Tally) -> Result<(), AllocError> {
    let kinds = [(3u32, 40_000u32), (8, 20_000), (32, 6_000)];
    for (part, (sites, operations)) in kinds.iter().enumerate() {
        let seed = plan.seed(part as u64);
        let world = World::new(alloc, *sites, plan.of(*operations), seed)?;
        tally.world(*sites, world.as_bytes());
    }
    Ok(())
}

// Texts that are read again and again, with a key between: a long one, and one of which most was deleted. And old versions
// of a document.
fn reading(alloc: Global, plan: Plan, tally: &mut Tally) -> Result<(), AllocError> {
    let texts = [
        (0u64, 110_000u32, 110_000u32, 500u32),
        (1, 60_000, 3_000, 1_500),
    ];
    for (part, operations, left, reads) in texts {
        let habits = Habits {
            operations: plan.of(operations),
            jumps: 2,
            ranges: 2,
            ..TYPING
        };
        let mut script = Script::new(alloc, habits, plan.seed(part))?;
        script.fill()?;
        script.delete_to(plan.of(left))?;
        script.read_often(plan.of(reads))?;
        tally.lines(0, false, false, script.as_bytes());
    }
    let manner = Manner {
        operations: plan.of(80_000),
        most: 64,
        goes_on: false,
        deletes: 10,
        ..LOG
    };
    let log = LogText::new(alloc, manner, plan.seed(2))?;
    let text = log.snapshot(alloc, 2)?;
    let Ok(doc) = load_doc(alloc, text.as_str().as_bytes()) else {
        return Ok(());
    };
    let readings = plan.of(60);
    for nth in 0..readings {
        let version = u64::from(log.version()) * u64::from(nth) / u64::from(readings.max(1));
        let Ok(reading) = doc.reading(u32::try_from(version).unwrap_or(0)) else {
            return Ok(());
        };
        tally.written.add(reading.as_str().as_bytes());
    }
    Ok(())
}
