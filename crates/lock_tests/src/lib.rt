//! Tests of the lock, of the room that threads share behind it, and of lines over such a room, over public calls of several
//! crates. They stand apart from those crates, which would be proved once more for tests of their own, and from the other tests of
//! lines and those of connections, since one crate of all would be proved far more slowly.
#![tactic(auto)]

#[cfg(test)]
mod crowd;
#[cfg(test)]
mod lines;
#[cfg(test)]
mod locks;
#[cfg(test)]
mod shared;
