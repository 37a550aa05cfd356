//! Tests of the line engine, and of desks that carry to each other, over public calls. They stand apart from the crates below, which
//! would be proved once more for tests of their own.
#![tactic(auto)]

#[cfg(test)]
mod desks;
#[cfg(test)]
mod lines;
#[cfg(test)]
mod memory;
