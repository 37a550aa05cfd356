//! Tests of kept files over the public calls of `keeper`: on a disk that fails, and on the system's. They stand apart from that crate,
//! which would be proved once more for tests of its own.
#![tactic(auto)]

#[cfg(test)]
mod fixtures;
#[cfg(test)]
mod memory;
#[cfg(test)]
mod openings;
#[cfg(test)]
mod system;
#[cfg(test)]
mod turns;
