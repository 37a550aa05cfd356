//! What a version shows, and what stands where in the newest one.
pub(crate) mod climb;
pub(crate) mod greater;
pub(crate) mod rank;
pub(crate) mod search;
pub(crate) mod walk;
