//! Tests of operations as JSON, over the public calls of `operation_json` and `wire_json`, which would be proved once
//! more for tests of their own.
#![tactic(auto)]

#[cfg(test)]
mod operation_objects;
#[cfg(test)]
mod requests;
#[cfg(test)]
mod runs;
