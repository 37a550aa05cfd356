//! A reader of bytes in memory, and a writer that keeps a digest of what it is given.
use std::io::{Read, Result, Write};

/// Gives the bytes.
#[derive(Drop)]
pub(crate) struct Given<'a> {
    bytes: &'a [u8],
}

impl<'a> Given<'a> {
    /// A reader of these bytes.
    pub(crate) fn new(bytes: &'a [u8]) -> Given<'a> {
        Given { bytes }
    }
}

impl Read for Given<'_> {
    fn read(&mut self, buf: &mut [u8]) -> Result<usize> {
        let n = self.bytes.len().min(buf.len());
        let (now, later) = self.bytes.split_at(n);
        buf[..n].copy_from_slice(now);
        self.bytes = later;
        Ok(n)
    }
}

/// How often it was written, how many bytes, how many of the writes began as refusals do, and a digest of all bytes.
#[derive(Drop)]
pub(crate) struct Digest {
    pub(crate) writes: u64,
    pub(crate) refusals: u64,
    pub(crate) bytes: u64,
    pub(crate) hash: u64,
}

impl Digest {
    /// The digest of nothing.
    pub(crate) fn new() -> Digest {
        Digest {
            writes: 0,
            refusals: 0,
            bytes: 0,
            hash: 0,
        }
    }

    fn mix(&mut self, word: u64) {
        self.hash = (self.hash.rotate_left(5) ^ word).wrapping_mul(0x517c_c1b7_2722_0a95);
    }

    /// Takes bytes in, eight at a time, and how many there are.
    pub(crate) fn add(&mut self, bytes: &[u8]) {
        let (words, rest) = bytes.as_chunks::<8>();
        for word in words {
            self.mix(u64::from_le_bytes(*word));
        }
        for byte in rest {
            self.mix(u64::from(*byte));
        }
        self.mix(bytes.len() as u64);
        self.bytes = self.bytes.wrapping_add(bytes.len() as u64);
    }
}

impl Write for Digest {
    fn write(&mut self, buf: &[u8]) -> Result<usize> {
        self.writes = self.writes.wrapping_add(1);
        if buf.starts_with(b"{\"n\":") {
            self.refusals = self.refusals.wrapping_add(1);
        }
        self.add(buf);
        Ok(buf.len())
    }

    fn flush(&mut self) -> Result<()> {
        Ok(())
    }
}
