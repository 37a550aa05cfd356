//! Tests of the server behind WebSockets, over public calls. They stand apart from that crate, which would be proved once more for
//! tests of its own.
#![tactic(auto)]

#[cfg(test)]
mod gates;
#[cfg(test)]
mod halls;
#[cfg(test)]
mod looks;
#[cfg(test)]
mod memory;
#[cfg(test)]
mod refusals;
#[cfg(test)]
mod streams;
