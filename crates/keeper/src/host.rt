//! A file of the system. No contract knows what it does: it isn't honest, so that no clause says anything of it. That it does what the
//! clauses of `Disk` say has to be believed.
ghost use Rattle.std.specs.Prelude.{[], ◌≡◌};

use crate::disk::Disk;
use std::alloc::Global;
use std::fs::File;
use std::io;
use std::io::{Error, Read, Write};
use std::os::unix::fs::MetadataExt;

/// A file that was opened at its beginning, to be read and appended to.
#[derive(Drop)]
pub struct HostFile {
    file: File,
    // It was left with so many bytes at least, and at most: both are one, unless a call has failed since.
    least: u64,
    most: u64,
}

impl HostFile {
    /// This file.
    pub fn new(file: File) -> Self {
        HostFile {
            file,
            least: 0,
            most: u64::MAX,
        }
    }
}

impl Disk for HostFile {
    ghost honest = { λ m. ⊥ };

    ghost is_own = { λ m. Unit {0} };

    ghost seen = { λ m. [] };

    ghost may_leave = { λ m c. ⊥ };

    ghost fresh = { λ m. 0 };

    ghost moment = { λ m. 0 };

    ghost left_since = { λ m t c. ⊥ };

    ghost faults = { λ m. 0 };

    ghost counts_now = { λ m t c h le now. now };

    ghost only_now = { λ m c h left. left };

    fn read(&mut self, alloc: Global) -> io::Result<Vec<u8>> {
        let mut bytes = Vec::new(alloc);
        self.file.read_to_end(&mut bytes)?;
        self.least = bytes.len() as u64;
        self.most = self.least;
        Ok(bytes)
    }

    fn check(&self) -> io::Result<()> {
        let known = self.file.metadata()?;
        if known.nlink() == 0 {
            return Err(Error::other("the file was deleted or replaced"));
        }
        if known.len() < self.least || self.most < known.len() {
            return Err(Error::other("somebody else wrote to the file, or shortened it"));
        }
        Ok(())
    }

    fn cut(&mut self, len: u64) -> io::Result<()> {
        // (it is never made longer: that would fill in zeros)
        if self.file.metadata()?.len() < len {
            return Err(Error::other("somebody else shortened the file"));
        }
        self.least = self.least.min(len);
        self.file.set_len(len)?;
        self.least = len;
        self.most = len;
        Ok(())
    }

    fn append(&mut self, bytes: &[u8]) -> io::Result<()> {
        let more = bytes.len() as u64;
        self.most = self.most.saturating_add(more);
        self.file.write_all(bytes)?;
        self.least = self.least.saturating_add(more);
        Ok(())
    }

    fn sync(&mut self) -> io::Result<()> {
        // (the system may drop what it couldn't write, and the file's length with it)
        let least = self.least;
        self.least = 0;
        self.file.sync_data()?;
        self.least = least;
        // (what was changed meanwhile isn't kept)
        self.check()
    }
}
