//! A turn of each size from 1 to 64: a session of its own makes each kind of call, with just so many characters, places, edits and
//! operations. What is to be told is reckoned by sums alone: what a turn puts in stands before all else.
use crate::fixtures::{insertion, is_joined, is_ok, is_text};
use crate::operations::{at_head, behind, operation, stamp};
use causal_clock::Op;
use opid::{Edit, OpKind, Refusal};
use room::{Call, Operations, Outcome, Reply};
use std::alloc::{AllocError, Global};
use std::test::Fail;

/// How many turns there are, which is the size of the last one.
pub(crate) const TURNS: u32 = 64;

/// How many calls a turn makes.
pub(crate) const CALLS: usize = 8;

/// The turn of the session with the number of its size. Those of even sizes count UTF-16 units.
#[derive(Clone, Copy)]
pub(crate) struct Turn {
    pub size: u32,
    /// The version at which the session joins.
    pub version: u32,
    /// That version reads so many pairs of units, and then so many letters `x`.
    pub pairs: u32,
    pub letters: u32,
}

impl Turn {
    /// The first turn, in an empty room.
    pub(crate) fn first() -> Turn {
        Turn {
            size: 1,
            version: 0,
            pairs: 0,
            letters: 0,
        }
    }

    /// The turn behind this one, after which so many letters were handed over.
    pub(crate) fn next(self, handed: u32) -> Turn {
        let left = if self.counts_units() {
            self.size / 2
        } else {
            0
        };
        Turn {
            size: self.size.saturating_add(1),
            version: self.erased().saturating_add(handed),
            pairs: self.pairs.saturating_add(left),
            letters: self.letters.saturating_add(handed),
        }
    }

    pub(crate) fn counts_units(self) -> bool {
        self.size % 2 == 0
    }

    // How many characters it deletes: as many as its places, or half of them where each is a pair.
    fn deleted(self) -> u32 {
        if self.counts_units() {
            self.size / 2
        } else {
            self.size
        }
    }

    /// How many operations it makes.
    pub(crate) fn operations(self) -> usize {
        self.size.saturating_add(self.deleted()) as usize
    }

    // The version that its insertion leads to.
    fn typed(self) -> u32 {
        self.version.saturating_add(self.size)
    }

    /// The version that its deletion leads to.
    pub(crate) fn erased(self) -> u32 {
        self.typed().saturating_add(self.deleted())
    }

    // The character that it puts in, and how many places it takes.
    fn character(self) -> (char, u32) {
        if self.counts_units() {
            ('\u{1F600}', 2)
        } else {
            ('a', 1)
        }
    }

    /// The text of the version at which it begins.
    pub(crate) fn text(self, alloc: Global) -> Result<String, AllocError> {
        let mut text = String::new(alloc);
        repeat(&mut text, '\u{1F600}', self.pairs)?;
        repeat(&mut text, 'x', self.letters)?;
        Ok(text)
    }

    // The insertion of as many characters as its size, before all else.
    fn insertion(self, alloc: Global) -> Result<Call, AllocError> {
        let mut text = String::new(alloc);
        repeat(&mut text, self.character().0, self.size)?;
        insertion(alloc, self.size, 1, self.version, 0, text.as_str())
    }

    // The deletion of as many places as its size, from the first on.
    fn deletion(self) -> Call {
        Call::Del {
            s: self.size,
            n: 2,
            v: self.typed(),
            k: 0,
            c: self.size,
        }
    }

    // Asks for at most as many edits as its size.
    fn pull(self, have: u32) -> Call {
        Call::Pull {
            s: self.size,
            have,
            max: self.size,
        }
    }

    /// Its calls: a join, an insertion, another text under the insertion's number, the insertion's edits, a deletion, its edits, the
    /// insertion's operations, and a read.
    pub(crate) fn asks(self, alloc: Global, calls: &mut Vec<Call>) -> Result<(), AllocError> {
        let units = self.counts_units();
        let (after, max) = (self.version, self.size);
        calls.push(Call::Join { units })?;
        calls.push(self.insertion(alloc)?)?;
        calls.push(insertion(alloc, self.size, 1, self.version, 0, "b")?)?;
        calls.push(self.pull(self.version))?;
        calls.push(self.deletion())?;
        calls.push(self.pull(self.typed()))?;
        calls.push(Call::Ops { after, max })?;
        calls.push(Call::Read)?;
        Ok(())
    }

    /// As many operations as its size: letters of site 1, each behind the one before.
    pub(crate) fn hands(self, alloc: Global) -> Result<Call, Fail> {
        let mut ops = Vec::new(alloc);
        for n in 0..self.size {
            let letter = letter(self.letters.saturating_add(n))?;
            ops.push(letter)?;
        }
        Ok(Call::Put(Operations::new(ops)))
    }

    /// Whether this is the reply to its call at the place, where these texts are read before and behind it.
    pub(crate) fn is_told(self, place: usize, reply: &Reply, before: &str, behind: &str) -> bool {
        match place {
            0 => is_joined(reply, self.size, self.version, before),
            1 | 2 => is_ok(reply, (self.version, self.typed())),
            3 => self.tells_insertions(reply),
            4 => is_ok(reply, (self.typed(), self.erased())),
            5 => self.tells_deletions(reply),
            6 => self.tells_operations(reply),
            7 => is_text(reply, self.erased(), behind),
            _ => self.tells_outcomes(reply),
        }
    }

    fn tells_insertions(self, reply: &Reply) -> bool {
        let Reply::Edits { from, es } = reply else {
            return false;
        };
        let (ch, width) = self.character();
        let mut all = *from == self.version && es.as_slice().len() == self.size as usize;
        for (place, edit) in es.as_slice().iter().enumerate() {
            all &= *edit == Edit::Ins(place.saturating_mul(width as usize), ch);
        }
        all
    }

    fn tells_deletions(self, reply: &Reply) -> bool {
        let Reply::Edits { from, es } = reply else {
            return false;
        };
        let one = if self.counts_units() {
            Edit::DelUnits(0, 2)
        } else {
            Edit::Del(0)
        };
        *from == self.typed()
            && es.as_slice().len() == self.deleted() as usize
            && es.as_slice().iter().all(|edit| *edit == one)
    }

    fn tells_operations(self, reply: &Reply) -> bool {
        let Reply::Ops { from, ops } = reply else {
            return false;
        };
        let mut all = *from == self.version && ops.as_slice().len() == self.size as usize;
        for (op, n) in ops.as_slice().iter().zip(0..self.size) {
            all &= matches!(&self.is_typed(op, n), Ok(true));
        }
        all
    }

    // Whether it has put in the operation as its character number `n`.
    fn is_typed(self, op: &Op, n: u32) -> Result<bool, Refusal> {
        let sum = self.version.saturating_add(n);
        let ch = self.character().0;
        let kind = if n == 0 {
            at_head(ch)
        } else {
            behind(stamp(sum, 0)?, ch)
        };
        Ok(op.stamp() == stamp(sum.saturating_add(1), 0)? && op.kind() == kind)
    }

    fn tells_outcomes(self, reply: &Reply) -> bool {
        let Reply::Put(outcomes) = reply else {
            return false;
        };
        let outcomes = outcomes.as_slice();
        outcomes.len() == self.size as usize
            && outcomes.iter().all(|one| *one == Outcome::Took(1, 0))
    }
}

// The letter of site 1 behind so many of its own.
fn letter(before: u32) -> Result<Op, Refusal> {
    let kind: OpKind = if before == 0 {
        at_head('x')
    } else {
        behind(stamp(before, 1)?, 'x')
    };
    operation(1, 0, before.saturating_add(1), kind)
}

// Writes a character so often.
fn repeat(text: &mut String, ch: char, count: u32) -> Result<(), AllocError> {
    for _ in 0..count {
        text.push(ch)?;
    }
    Ok(())
}
