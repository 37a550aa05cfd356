//! A file whose last line was cut short.
ghost use Rattle.std.specs.Prelude.{◌≡◌, ◌++◌, IfOk};
ghost use Rattle.keeper.specs.Disk.{Only, HasCause};

use crate::disk::Disk;
use crate::kept::KeptFile;
use std::io;

/// A file whose last line was cut short. The first turn would cut that off: so nothing is kept in the file before it is saved.
#[derive(Drop)]
pub struct TornFile<D: Disk> {
    kept: KeptFile<D>,
    tail: Vec<u8>,
}

impl<D: Disk> TornFile<D> {
    // A kept file, and what stands behind its mark.
    pub(crate) fn new(kept: KeptFile<D>, tail: Vec<u8>) -> Self
        ensures { result ≡ record { kept = kept; tail = tail } }
    {
        TornFile { kept, tail }
    }

    /// What stands behind the last whole line.
    pub fn tail(&self) -> &[u8]
        ensures { result.now ≡ self.now.tail.items }
    {
        self.tail.as_slice()
    }

    /// Saves it in another file that was made for it, and syncs that: then the log is kept from here on.
    ///
    /// Refused as that file's disk is; then this file is left as it is.
    pub fn save<S: Disk>(self, beside: &mut S) -> io::Result<KeptFile<D>>
        ensures kept { IfOk result (λ kept. kept ≡ self.kept) }
        ensures saved { IfOk result (λ kept. S.honest beside.old → S.fresh beside.old ≡ 0
            → Only (S.seen beside.old ++ self.tail.items) (S.may_leave beside.new)) }
        ensures cause { S.honest beside.old → HasCause (S.faults beside.old) (S.faults beside.new) result }
    {
        beside.append(self.tail.as_slice())?;
        beside.sync()?;
        Ok(self.kept)
    }
}
