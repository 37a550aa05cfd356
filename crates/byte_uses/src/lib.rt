//! A use of each library that reads, writes and keeps bytes, and of those that the program is made of, as a caller writes it. Its lines
//! stand on the library's page.
#![tactic(auto)]

pub mod of_command_line;
pub mod of_commands;
pub mod of_journal;
pub mod of_json_bytes;
pub mod of_keeper;
pub mod of_line_engine;
pub mod of_operation_json;
pub mod of_plans;
pub mod of_renewal;
pub mod of_snapshot;
pub mod of_wire_json;
#[cfg(test)]
mod tests;
