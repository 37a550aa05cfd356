//! What a world answers.
use crate::reply::Reply;
use opid::Refusal;

/// What a world answers to an event.
#[derive(Debug, Drop)]
pub enum WorldReply {
    /// A room's reply.
    Room(Reply),
    /// The new site is there.
    Forked,
    /// The event was refused, and nothing changed.
    No(Refusal),
}
