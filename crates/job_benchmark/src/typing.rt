//! Editors of one room: each types, deletes, pastes and pulls, some of them hundreds of versions behind.
//!
//! A script knows which version each line makes, as each accepted character or deletion makes one, and of each version
//! a length that it has at least: what was put in less what was asked to be deleted. So all places that it names are there.
use crate::dice::Dice;
use crate::texts::{push_characters, push_number};
use std::alloc::{AllocError, Global};

/// What the editors of a room are like.
#[derive(Clone, Copy)]
pub(crate) struct Habits {
    /// How many sessions there are, 1 to 64.
    pub(crate) sessions: u32,
    /// How many operations they make at least.
    pub(crate) operations: u32,
    /// Of how many keys one is pressed at another place: 1 where each is.
    pub(crate) jumps: u32,
    /// Of how many keys one is a backspace; 0 for none.
    pub(crate) backspaces: u32,
    /// Of how many keys one pastes up to 64 characters, and one deletes as many; 0 for none.
    pub(crate) ranges: u32,
    /// Of how many keys one is followed by pulls of all that is new, where an editor doesn't pull after each.
    pub(crate) pulls: u32,
    /// Whether all characters are pairs, and every other session counts UTF-16 units.
    pub(crate) pairs: bool,
}

// A session: the version that it has, where its cursor stands there, the number of its next submission, and the units
// of a character.
#[derive(Clone, Copy, Drop)]
struct Session {
    have: u32,
    cursor: u32,
    number: u32,
    width: u32,
}

/// The lines of a script, with the lengths that its versions have at least.
#[derive(Drop)]
pub(crate) struct Script {
    text: String,
    dice: Dice,
    habits: Habits,
    lengths: Vec<u32>,
    sessions: Vec<Session>,
}

// How one of `n` that may be 0 comes up.
fn is_chosen(dice: &mut Dice, n: u32) -> bool {
    n > 0 && dice.once_in(n)
}

impl Script {
    /// A script that begins with the sessions' joining an empty room.
    pub(crate) fn new(alloc: Global, habits: Habits, seed: u64) -> Result<Script, AllocError> {
        let mut script = Script {
            text: String::new(alloc),
            dice: Dice::new(seed),
            habits,
            lengths: Vec::new(alloc),
            sessions: Vec::new(alloc),
        };
        script.lengths.push(0)?;
        for number in 0..habits.sessions {
            let counts_units = habits.pairs && number % 2 == 0;
            let line = if counts_units {
                "{\"t\":\"join\",\"u\":16}\n"
            } else {
                "{\"t\":\"join\"}\n"
            };
            script.text.push_str(line)?;
            script.sessions.push(Session {
                have: 0,
                cursor: 0,
                number: 1,
                width: if counts_units { 2 } else { 1 },
            })?;
        }
        Ok(script)
    }

    /// The newest version.
    pub(crate) fn version(&self) -> u32 {
        u32::try_from(self.lengths.len())
            .unwrap_or(0)
            .saturating_sub(1)
    }

    // How long a version is at least.
    fn length(&self, version: u32) -> u32 {
        self.lengths.get(version as usize).copied().unwrap_or(0)
    }

    // Makes a version that is so much longer or shorter.
    fn add_version(&mut self, longer: u32, shorter: u32) -> Result<(), AllocError> {
        let length = self.length(self.version());
        self.lengths
            .push(length.saturating_add(longer).saturating_sub(shorter))?;
        Ok(())
    }

    fn push(&mut self, piece: &str, n: u32) -> Result<(), AllocError> {
        self.text.push_str(piece)?;
        push_number(&mut self.text, n)
    }

    // The members that all submissions have.
    fn push_submission(
        &mut self,
        kind: &str,
        who: u32,
        session: Session,
        place: u32,
    ) -> Result<(), AllocError> {
        self.text.push_str(kind)?;
        self.push("\",\"s\":", who.saturating_add(1))?;
        self.push(",\"n\":", session.number)?;
        self.push(",\"v\":", session.have)?;
        self.push(",\"k\":", place.saturating_mul(session.width))
    }

    fn insert(&mut self, who: u32, session: &mut Session, count: u32) -> Result<(), AllocError> {
        self.push_submission("{\"t\":\"ins", who, *session, session.cursor)?;
        self.text.push_str(",\"x\":\"")?;
        push_characters(&mut self.text, &mut self.dice, count, self.habits.pairs)?;
        self.text.push_str("\"}\n")?;
        for _ in 0..count {
            self.add_version(1, 0)?;
        }
        session.number = session.number.saturating_add(1);
        session.cursor = session.cursor.saturating_add(count);
        Ok(())
    }

    // Deletes so many characters before the cursor.
    fn delete(&mut self, who: u32, session: &mut Session, count: u32) -> Result<(), AllocError> {
        let place = session.cursor.saturating_sub(count);
        self.push_submission("{\"t\":\"del", who, *session, place)?;
        self.push(",\"c\":", count.saturating_mul(session.width))?;
        self.text.push_str("}\n")?;
        for _ in 0..count {
            self.add_version(0, 1)?;
        }
        session.number = session.number.saturating_add(1);
        session.cursor = place;
        Ok(())
    }

    // A pull of at most 64 edits.
    fn pull(&mut self, who: u32, session: &mut Session) -> Result<(), AllocError> {
        self.push("{\"t\":\"pull\",\"s\":", who.saturating_add(1))?;
        self.push(",\"have\":", session.have)?;
        self.text.push_str(",\"max\":64}\n")?;
        session.have = session.have.saturating_add(64).min(self.version());
        Ok(())
    }

    // Pulls until nothing is new.
    fn catch_up(&mut self, who: u32, session: &mut Session) -> Result<(), AllocError> {
        let behind = self.version().saturating_sub(session.have);
        for _ in 0..behind.div_ceil(64) {
            self.pull(who, session)?;
        }
        Ok(())
    }

    // One key, at the cursor or elsewhere.
    fn press(&mut self, who: u32, session: &mut Session) -> Result<(), AllocError> {
        let length = self.length(session.have);
        if self.dice.once_in(self.habits.jumps) {
            session.cursor = self.dice.below(length.saturating_add(1));
        }
        session.cursor = session.cursor.min(length);
        let most = session.cursor.min(64 / session.width.max(1));
        if is_chosen(&mut self.dice, self.habits.ranges) {
            let count = self.dice.among(2, 64);
            self.insert(who, session, count)
        } else if most > 1 && is_chosen(&mut self.dice, self.habits.ranges) {
            let count = self.dice.among(2, most);
            self.delete(who, session, count)
        } else if most > 0 && is_chosen(&mut self.dice, self.habits.backspaces) {
            self.delete(who, session, 1)
        } else {
            self.insert(who, session, 1)
        }
    }

    // Some keys of one session, which pulls after each where it has all that others did, and else now and then.
    fn burst(&mut self, who: u32) -> Result<(), AllocError> {
        let Some(mut session) = self.sessions.get(who as usize).copied() else {
            return Ok(());
        };
        let keys = self.dice.among(1, 24);
        for _ in 0..keys {
            let is_new = session.have == self.version();
            self.press(who, &mut session)?;
            if is_new {
                self.catch_up(who, &mut session)?;
            } else if self.dice.once_in(self.habits.pulls) {
                self.catch_up(who, &mut session)?;
            }
        }
        if let Some(kept) = self.sessions.get_mut(who as usize) {
            *kept = session;
        }
        Ok(())
    }

    /// The keys of all sessions but the last, where there are several.
    pub(crate) fn fill(&mut self) -> Result<(), AllocError> {
        let typists = self.habits.sessions.saturating_sub(1).max(1);
        let operations = self.habits.operations;
        for _ in 0..operations {
            if self.version() >= operations {
                break;
            }
            let who = self.dice.below(typists);
            self.burst(who)?;
        }
        Ok(())
    }

    /// All keys, and then each session comes back, the last of them after it had pulled nothing; one more joins, the text is
    /// read, and the first leaves.
    pub(crate) fn write_all(&mut self) -> Result<(), AllocError> {
        self.fill()?;
        for who in 0..self.habits.sessions {
            if let Some(mut session) = self.sessions.get(who as usize).copied() {
                self.catch_up(who, &mut session)?;
            }
        }
        self.text.push_str("{\"t\":\"join\"}\n{\"t\":\"read\"}\n{\"t\":\"leave\",\"s\":1}\n")
    }

    /// The first session deletes ranges until at most so many characters may be left.
    pub(crate) fn delete_to(&mut self, left: u32) -> Result<(), AllocError> {
        let Some(mut session) = self.sessions.first().copied() else {
            return Ok(());
        };
        self.catch_up(0, &mut session)?;
        for _ in 0..self.version() {
            let length = self.length(session.have);
            if length <= left.saturating_add(64) {
                break;
            }
            session.cursor = self.dice.among(64, length);
            self.delete(0, &mut session, 64)?;
            self.catch_up(0, &mut session)?;
        }
        if let Some(kept) = self.sessions.first_mut() {
            *kept = session;
        }
        Ok(())
    }

    /// So many reads, a key of the first session before each, and a further session beside each of the first 40.
    pub(crate) fn read_often(&mut self, reads: u32) -> Result<(), AllocError> {
        let Some(mut session) = self.sessions.first().copied() else {
            return Ok(());
        };
        self.catch_up(0, &mut session)?;
        for read in 0..reads {
            self.press(0, &mut session)?;
            self.catch_up(0, &mut session)?;
            self.text.push_str("{\"t\":\"read\"}\n")?;
            if read < 40 {
                self.text.push_str("{\"t\":\"join\"}\n")?;
            }
        }
        if let Some(kept) = self.sessions.first_mut() {
            *kept = session;
        }
        Ok(())
    }

    /// The lines.
    pub(crate) fn as_bytes(&self) -> &[u8] {
        self.text.as_str().as_bytes()
    }
}
