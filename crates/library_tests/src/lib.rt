//! Tests of clocks, texts, lists, trees, documents, what is held back and sessions, over the public calls of their crates. They
//! stand apart from those crates, which would be proved once more for tests of their own.
#![tactic(auto)]

#[cfg(test)]
mod clocks;
pub mod dice;
#[cfg(test)]
mod documents;
#[cfg(test)]
mod held_back;
#[cfg(test)]
mod lending;
#[cfg(test)]
mod lists;
#[cfg(test)]
mod plain;
#[cfg(test)]
mod printed;
#[cfg(test)]
mod sessions;
#[cfg(test)]
mod splices;
#[cfg(test)]
mod trees;
