//! Runs of the program's commands over bytes in memory.
use crate::streams::{Digest, Given};
use commands::{play_lines, play_text, play_world};
use line_engine::Counted;
use opid::Site;
use plans::Sites;
use std::alloc::Global;

/// What all runs of a job answered.
#[derive(Drop)]
pub(crate) struct Tally {
    alloc: Global,
    /// How many runs there were.
    pub(crate) runs: u32,
    /// How many ended with a fault or were refused.
    pub(crate) stops: u32,
    /// What was written.
    pub(crate) written: Digest,
}

impl Tally {
    /// No runs.
    pub(crate) fn new(alloc: Global) -> Tally {
        Tally {
            alloc,
            runs: 0,
            stops: 0,
            written: Digest::new(),
        }
    }

    fn end(&mut self, went_well: bool) {
        self.runs = self.runs.saturating_add(1);
        if !went_well {
            self.stops = self.stops.saturating_add(1);
        }
    }

    // What was written, taken out for a run.
    fn take(&mut self) -> Digest {
        std::mem::replace(&mut self.written, Digest::new())
    }

    /// `lines` of the site, which may resume over a snapshot, and may write its own.
    pub(crate) fn lines(&mut self, site: u8, resume: bool, snapshot: bool, input: &[u8]) {
        let Ok(site) = Site::new(site.min(31)) else {
            return;
        };
        let mut input = Counted::new(Given::new(input));
        let mut output = Counted::new(self.take());
        let ran = play_lines(self.alloc, site, resume, snapshot, &mut input, &mut output);
        self.written = output.into_inner();
        self.end(ran.is_ok());
    }

    /// `text` of a snapshot.
    pub(crate) fn text(&mut self, version: Option<u32>, input: &[u8]) {
        let mut input = Counted::new(Given::new(input));
        let mut output = Counted::new(self.take());
        let ran = play_text(self.alloc, version, &mut input, &mut output);
        self.written = output.into_inner();
        self.end(ran.is_ok());
    }

    /// `world` of so many sites.
    pub(crate) fn world(&mut self, sites: u32, input: &[u8]) {
        let Some(sites) = Sites::new(u8::try_from(sites).unwrap_or(1)) else {
            return;
        };
        let mut input = Counted::new(Given::new(input));
        let mut output = Counted::new(self.take());
        let ran = play_world(self.alloc, sites, &mut input, &mut output);
        self.written = output.into_inner();
        self.end(ran.is_ok());
    }
}
