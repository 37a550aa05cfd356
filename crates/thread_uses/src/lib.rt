//! A use of each library for threads and servers, as a caller writes it. Its lines stand on the library's page.
#![tactic(auto)]

pub mod of_history_lock;
pub mod of_kept_rooms;
pub mod of_shared_lines;
pub mod of_shared_room;
pub mod of_ws_server;
#[cfg(test)]
mod tests;
