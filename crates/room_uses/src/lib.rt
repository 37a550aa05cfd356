//! A use of each library that documents, rooms and editors are made of, as a caller writes it. Its lines stand on the library's page.
#![tactic(auto)]

pub mod of_causal_clock;
pub mod of_characters;
pub mod of_counted_tree;
pub mod of_editors;
pub mod of_holdback;
pub mod of_opid;
pub mod of_position_translate;
pub mod of_replica;
pub mod of_replica_world;
pub mod of_rga_list;
pub mod of_room;
pub mod of_room_model;
pub mod of_session_outbox;
pub mod of_splice;
pub mod of_versions;
#[cfg(test)]
mod tests;
