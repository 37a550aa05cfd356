//! Scripts of a world: sites that type, and whose operations are carried to each other.
//!
//! In each round some sites type, and then each operation is carried to each other site. So after a round all sites have
//! all operations, and in it the new ones of a site stand in its own log behind those of the rounds before.
use crate::dice::Dice;
use crate::texts::{push_characters, push_number};
use std::alloc::{AllocError, Global};

/// A script.
#[derive(Drop)]
pub(crate) struct World {
    text: String,
    dice: Dice,
    sites: u32,
    // The version of all sites after the last round, and the length of its text at least.
    version: u32,
    length: u32,
    // The next submission of each site.
    numbers: Vec<u32>,
    // How many operations each site made in this round.
    made: Vec<u32>,
}

impl World {
    /// A script of so many sites, 2 to 32, each with a session, and of so many operations at least.
    pub(crate) fn new(
        alloc: Global,
        sites: u32,
        operations: u32,
        seed: u64,
    ) -> Result<World, AllocError> {
        let mut world = World {
            text: String::new(alloc),
            dice: Dice::new(seed),
            sites,
            version: 0,
            length: 0,
            numbers: Vec::new(alloc),
            made: Vec::new(alloc),
        };
        for site in 0..sites {
            world.push("call ", site)?;
            world.text.push_str(" {\"t\":\"join\"}\n")?;
            world.numbers.push(1)?;
            world.made.push(0)?;
        }
        for _ in 0..operations {
            if world.version >= operations {
                break;
            }
            world.round()?;
        }
        Ok(world)
    }

    /// The lines.
    pub(crate) fn as_bytes(&self) -> &[u8] {
        self.text.as_str().as_bytes()
    }

    fn push(&mut self, piece: &str, n: u32) -> Result<(), AllocError> {
        self.text.push_str(piece)?;
        push_number(&mut self.text, n)
    }

    // The site puts characters in, or deletes as many, in the version of all.
    fn submit(&mut self, site: u32, count: u32) -> Result<(), AllocError> {
        let number = self.numbers.get(site as usize).copied().unwrap_or(1);
        let place = self
            .dice
            .below(self.length.saturating_sub(count).saturating_add(1));
        let deletes = self.length > count && self.dice.once_in(5);
        self.push("call ", site)?;
        let kind = if deletes {
            " {\"t\":\"del\",\"s\":1,\"n\":"
        } else {
            " {\"t\":\"ins\",\"s\":1,\"n\":"
        };
        self.push(kind, number)?;
        self.push(",\"v\":", self.version)?;
        self.push(",\"k\":", place)?;
        if deletes {
            self.push(",\"c\":", count)?;
            self.text.push_str("}\n")?;
        } else {
            self.text.push_str(",\"x\":\"")?;
            push_characters(&mut self.text, &mut self.dice, count, false)?;
            self.text.push_str("\"}\n")?;
        }
        if let Some(next) = self.numbers.get_mut(site as usize) {
            *next = number.saturating_add(1);
        }
        if let Some(made) = self.made.get_mut(site as usize) {
            *made = made.saturating_add(count);
        }
        self.length = if deletes {
            self.length.saturating_sub(count)
        } else {
            self.length
        };
        Ok(())
    }

    // Some sites type, all operations are carried, and each site pulls.
    fn round(&mut self) -> Result<(), AllocError> {
        let before = self.length;
        let mut new = 0u32;
        let mut inserted = 0u32;
        for site in 0..self.sites {
            if let Some(made) = self.made.get_mut(site as usize) {
                *made = 0;
            }
            if self.dice.once_in(2) {
                let count = self.dice.among(1, 6);
                let length = self.length;
                self.submit(site, count)?;
                if self.length == length {
                    inserted = inserted.saturating_add(count);
                }
                new = new.saturating_add(count);
            }
        }
        self.carry_all()?;
        let deleted = before.saturating_sub(self.length);
        self.length = before.saturating_add(inserted).saturating_sub(deleted);
        self.pull_all(new)?;
        self.version = self.version.saturating_add(new);
        Ok(())
    }

    // Each operation of this round to each other site, sometimes the later ones of a site first.
    fn carry_all(&mut self) -> Result<(), AllocError> {
        for from in 0..self.sites {
            let made = self.made.get(from as usize).copied().unwrap_or(0);
            let backwards = self.dice.once_in(3);
            for to in 0..self.sites {
                for place in 0..made {
                    let nth = if backwards {
                        made.saturating_sub(place).saturating_sub(1)
                    } else {
                        place
                    };
                    if to != from {
                        self.push("carry ", from)?;
                        self.push(" ", self.version.saturating_add(nth))?;
                        self.push(" ", to)?;
                        self.text.push_str("\n")?;
                    }
                }
            }
        }
        Ok(())
    }

    fn pull_all(&mut self, new: u32) -> Result<(), AllocError> {
        for site in 0..self.sites {
            for part in 0..new.div_ceil(64) {
                self.push("call ", site)?;
                let have = self.version.saturating_add(part.saturating_mul(64));
                self.push(" {\"t\":\"pull\",\"s\":1,\"have\":", have)?;
                self.text.push_str(",\"max\":64}\n")?;
            }
        }
        Ok(())
    }
}
