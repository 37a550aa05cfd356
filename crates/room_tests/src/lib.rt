//! Tests of a room and of the crates that it stands on, of editors and of worlds, over their public calls: what no conversation
//! with the program says. They stand apart from those crates, which would be proved once more for tests of their own.
#![tactic(auto)]

#[cfg(test)]
mod counts;
#[cfg(test)]
mod fixtures;
#[cfg(test)]
mod followed;
#[cfg(test)]
mod forged;
#[cfg(test)]
mod long_texts;
#[cfg(test)]
mod operations;
#[cfg(test)]
mod replicas;
#[cfg(test)]
mod rooms;
#[cfg(test)]
mod turns;
#[cfg(test)]
mod worlds;
