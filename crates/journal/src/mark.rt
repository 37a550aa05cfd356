//! How far a journal reaches in its file.
use sha2::Sha256;

/// How far a journal reaches in its file.
#[derive(Debug, Drop)]
pub struct Mark {
    /// How many operations its lines tell.
    pub version: u32,
    /// How many bytes they take.
    pub length: u64,
    /// These bytes, as they were hashed.
    pub digest: Sha256,
}
