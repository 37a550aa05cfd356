//! Logs of operations as JSON texts: of one site or of many, each of which learns now and then what the others did.
use crate::dice::Dice;
use crate::texts::{push_characters, push_number};
use std::alloc::{AllocError, Global};

/// How the operations of a log come about.
#[derive(Clone, Copy)]
pub(crate) struct Manner {
    /// How many sites there are, 1 to 31: they are numbered from 0.
    pub(crate) sites: u32,
    /// How many operations there are at least.
    pub(crate) operations: u32,
    /// The most that a site types in one go.
    pub(crate) most: u32,
    /// Whether each stands behind the one before it, or a site begins at a random place.
    pub(crate) goes_on: bool,
    /// Of how many times that a site begins to type it deletes in its place once; 0 for never.
    pub(crate) deletes: u32,
    /// Whether what a site types in one go is one object.
    pub(crate) packs: bool,
}

// The stamp of an operation, and whether it is an insertion.
#[derive(Clone, Copy, Drop)]
struct Known {
    sum: u32,
    site: u32,
    inserts: bool,
}

const SITES: usize = 32;

/// A log: the texts of its items, each of which stands from one place in the whole text to the next.
#[derive(Drop)]
pub(crate) struct LogText {
    text: String,
    // Where each item begins, and where the last one ends.
    bounds: Vec<usize>,
    // How many operations each item stands for.
    counts: Vec<u32>,
    known: Vec<Known>,
    // Of each site the counts that it knows, site after site.
    clocks: Vec<u32>,
    // How much of the log each site knew when it learned last.
    learned: [u32; SITES],
    dice: Dice,
    manner: Manner,
}

impl LogText {
    /// The log of a seed.
    pub(crate) fn new(alloc: Global, manner: Manner, seed: u64) -> Result<LogText, AllocError> {
        let mut log = LogText {
            text: String::new(alloc),
            bounds: Vec::new(alloc),
            counts: Vec::new(alloc),
            known: Vec::new(alloc),
            clocks: Vec::new(alloc),
            learned: [0; SITES],
            dice: Dice::new(seed),
            manner,
        };
        for _ in 0..SITES * SITES {
            log.clocks.push(0)?;
        }
        log.bounds.push(0)?;
        for _ in 0..manner.operations {
            if log.version() >= manner.operations {
                break;
            }
            let site = log.dice.below(manner.sites.min(31));
            log.burst(site)?;
        }
        Ok(log)
    }

    /// How many operations there are.
    pub(crate) fn version(&self) -> u32 {
        u32::try_from(self.known.len()).unwrap_or(0)
    }

    /// How many items there are.
    pub(crate) fn len(&self) -> usize {
        self.counts.len()
    }

    /// How many operations an item stands for.
    pub(crate) fn count(&self, item: usize) -> u32 {
        self.counts.get(item).copied().unwrap_or(0)
    }

    /// The text of an item.
    pub(crate) fn item(&self, item: usize) -> &str {
        let begin = self.bounds.get(item).copied().unwrap_or(0);
        let end = self
            .bounds
            .get(item.saturating_add(1))
            .copied()
            .unwrap_or(0);
        self.text.as_str().get(begin..end).unwrap_or("")
    }

    /// The log as a snapshot of this format.
    pub(crate) fn snapshot(&self, alloc: Global, format: u32) -> Result<String, AllocError> {
        let mut text = String::from_str(alloc, "{\"format\":")?;
        push_number(&mut text, format)?;
        text.push_str(",\"ops\":[")?;
        for item in 0..self.len() {
            if item > 0 {
                text.push_str(",")?;
            }
            text.push_str(self.item(item))?;
        }
        text.push_str("]}")?;
        Ok(text)
    }

    fn place(site: u32, of: u32) -> usize {
        (site as usize % SITES) * SITES + of as usize % SITES
    }

    fn entry(&self, site: u32, of: u32) -> u32 {
        self.clocks
            .get(LogText::place(site, of))
            .copied()
            .unwrap_or(0)
    }

    fn set_entry(&mut self, site: u32, of: u32, count: u32) {
        if let Some(entry) = self.clocks.get_mut(LogText::place(site, of)) {
            *entry = count;
        }
    }

    // The site learns of all that there is: its clock counts what each site has made.
    fn learn(&mut self, site: u32) {
        for of in 0..self.manner.sites.min(31) {
            let count = self.entry(of, of);
            self.set_entry(site, of, count);
        }
        let version = self.version();
        if let Some(learned) = self.learned.get_mut(site as usize) {
            *learned = version;
        }
    }

    // An insertion among those that the site knew when it learned last.
    fn element(&mut self, site: u32) -> Option<Known> {
        let learned = self.learned.get(site as usize).copied().unwrap_or(0);
        let place = if self.manner.goes_on {
            learned.saturating_sub(1)
        } else {
            self.dice.below(learned)
        };
        self.known
            .get(place as usize)
            .copied()
            .filter(|known| learned > 0 && known.inserts)
    }

    // One more operation of the site.
    fn count_one(&mut self, site: u32, inserts: bool) -> Result<(), AllocError> {
        let own = self.entry(site, site).saturating_add(1);
        self.set_entry(site, site, own);
        let mut sum = 0u32;
        for of in 0..31 {
            sum = sum.saturating_add(self.entry(site, of));
        }
        self.known.push(Known { sum, site, inserts })?;
        Ok(())
    }

    fn push(&mut self, piece: &str, n: u32) -> Result<(), AllocError> {
        self.text.push_str(piece)?;
        push_number(&mut self.text, n)
    }

    fn push_clock(&mut self, site: u32) -> Result<(), AllocError> {
        let mut before = "{\"c\":[[";
        for of in 0..31 {
            let count = self.entry(site, of);
            if count > 0 {
                self.push(before, of)?;
                self.push(",", count)?;
                before = "],[";
            }
        }
        self.text.push_str("]]")
    }

    fn push_stamp(&mut self, stamp: Option<Known>) -> Result<(), AllocError> {
        match stamp {
            None => self.text.push_str("null"),
            Some(known) => {
                self.push("[", known.sum)?;
                self.push(",", known.site)?;
                self.text.push_str("]")
            }
        }
    }

    fn end_item(&mut self, count: u32) -> Result<(), AllocError> {
        self.counts.push(count)?;
        self.bounds.push(self.text.as_str().len())?;
        Ok(())
    }

    // An insertion, or a run of `count`, behind an element.
    fn push_insertion(
        &mut self,
        site: u32,
        behind: Option<Known>,
        count: u32,
    ) -> Result<(), AllocError> {
        self.count_one(site, true)?;
        self.push_clock(site)?;
        let kind = if count > 1 {
            ",\"k\":\"r\",\"p\":"
        } else {
            ",\"k\":\"i\",\"p\":"
        };
        self.text.push_str(kind)?;
        self.push_stamp(behind)?;
        self.push(",\"s\":", site)?;
        self.text.push_str(",\"x\":\"")?;
        push_characters(&mut self.text, &mut self.dice, count, false)?;
        self.text.push_str("\"}")?;
        for _ in 1..count {
            self.count_one(site, true)?;
        }
        self.end_item(count)
    }

    fn push_deletion(&mut self, site: u32, target: Known) -> Result<(), AllocError> {
        self.count_one(site, false)?;
        self.push_clock(site)?;
        self.push(",\"k\":\"d\",\"s\":", site)?;
        self.text.push_str(",\"t\":")?;
        self.push_stamp(Some(target))?;
        self.text.push_str("}")?;
        self.end_item(1)
    }

    // The site learns, or doesn't, and types in one go.
    fn burst(&mut self, site: u32) -> Result<(), AllocError> {
        if self.manner.goes_on || !self.dice.once_in(4) {
            self.learn(site);
        }
        let count = self.dice.among(1, self.manner.most);
        let mut behind = self.element(site);
        if let Some(target) = behind {
            if self.manner.deletes > 0 && self.dice.once_in(self.manner.deletes) {
                return self.push_deletion(site, target);
            }
        }
        if self.manner.packs {
            return self.push_insertion(site, behind, count);
        }
        for _ in 0..count {
            self.push_insertion(site, behind, 1)?;
            behind = self.known.last().copied();
        }
        Ok(())
    }
}
