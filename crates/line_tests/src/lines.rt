//! The engine over a room where a read or a write fails, and how many were counted.
use crate::desks::desk_of;
use line_engine::{Counted, ServeFault, serve_lines};
use opid::Site;
use std::alloc::Global;
use std::io::{Error, ErrorKind, Read, Result, Write};
use std::test::Fail;

// Gives a byte a read, counts the reads, and fails at the read number `fails_at`, from 1 on.
#[derive(Drop)]
struct Slow<'a> {
    bytes: &'a [u8],
    reads: usize,
    fails_at: usize,
}

impl Read for Slow<'_> {
    fn read(&mut self, buf: &mut [u8]) -> Result<usize> {
        self.reads = self.reads.saturating_add(1);
        if self.reads == self.fails_at {
            return Err(Error::from(ErrorKind::Other));
        }
        let n = self.bytes.len().min(1).min(buf.len());
        let (now, later) = self.bytes.split_at(n);
        buf[..n].copy_from_slice(now);
        self.bytes = later;
        Ok(n)
    }
}

// Takes a byte a write, and counts the writes. From the write number `fails_at` on it takes none, or fails.
#[derive(Drop)]
struct Short {
    writes: usize,
    fails_at: usize,
    tells: bool,
}

impl Write for Short {
    fn write(&mut self, buf: &[u8]) -> Result<usize> {
        self.writes = self.writes.saturating_add(1);
        if self.writes < self.fails_at {
            return Ok(buf.len().min(1));
        }
        if self.tells {
            return Err(Error::from(ErrorKind::Other));
        }
        Ok(0)
    }

    fn flush(&mut self) -> Result<()> {
        Ok(())
    }
}

// How a run ended, how often it read and wrote, and how many of these calls failed, as they were counted.
#[derive(Clone, Copy, PartialEq, Eq)]
struct Course {
    end: std::result::Result<(), ServeFault>,
    reads: usize,
    writes: usize,
    failed: (u64, u64),
}

// Three requests of 13 bytes, each of which has an answer of 34.
const JOINS: &[u8] = b"{\"t\":\"join\"}\n{\"t\":\"join\"}\n{\"t\":\"join\"}\n";

const REQUEST: usize = 13;

const ANSWER: usize = 34;

// The engine over an empty room of the site, where these calls fail.
fn run(alloc: Global, site: Site, read: usize, write: usize, tells: bool) -> Course {
    let mut desk = desk_of(alloc, site);
    let mut input = Counted::new(Slow {
        bytes: JOINS,
        reads: 0,
        fails_at: read,
    });
    let mut output = Counted::new(Short {
        writes: 0,
        fails_at: write,
        tells,
    });
    let end = serve_lines(alloc, &mut desk, &mut input, &mut output);
    let failed = (input.failures(), output.failures());
    let reader = input.into_inner();
    let writer = output.into_inner();
    Course {
        end,
        reads: reader.reads,
        writes: writer.writes,
        failed,
    }
}

// Whether a run ends at each read that fails, behind the answers to the requests that were read whole. The 40th is the one that
// finds the end.
fn ends_at_each_read(alloc: Global, site: Site) -> bool {
    let mut all = true;
    for number in 1usize..41 {
        let whole = number.saturating_sub(1) / REQUEST;
        all &= run(alloc, site, number, usize::MAX, false)
            == Course {
                end: Err(ServeFault::Read),
                reads: number,
                writes: whole.saturating_mul(ANSWER),
                failed: (1, 0),
            };
    }
    all
}

// Whether a run ends at each write that takes none or fails, and reads no request behind the one that is answered then.
fn ends_at_each_write(alloc: Global, site: Site, tells: bool) -> bool {
    let mut all = true;
    for number in 1usize..103 {
        let whole = number.saturating_sub(1) / ANSWER;
        all &= run(alloc, site, 0, number, tells)
            == Course {
                end: Err(ServeFault::Write),
                reads: whole.saturating_add(1).saturating_mul(REQUEST),
                writes: number,
                failed: (0, 1),
            };
    }
    all
}

#[test]
fn counts_each_call_that_fails(rt: HostRuntime) -> std::result::Result<(), Fail> {
    let site = Site::new(0)?;
    let mut all = run(rt.alloc(), site, 0, usize::MAX, false)
        == Course {
            end: Ok(()),
            reads: 40,
            writes: 102,
            failed: (0, 0),
        };
    all &= ends_at_each_read(rt.alloc(), site);
    all &= ends_at_each_write(rt.alloc(), site, false);
    all &= ends_at_each_write(rt.alloc(), site, true);
    assert!(rt; all);
    Ok(())
}
