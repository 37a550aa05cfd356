//! What the lock knows of the value that it guards.
ghost use Rattle.std.specs.Prelude.{ℕ, List};

/// A value with a trail and a mark, which contracts alone see.
///
/// A turn may add to the trail and takes nothing away. The mark is a number that no turn raises above its ticket plus
/// one: where it is the ticket of the last entry plus one, the tickets of a trail rise. What else is true of every
/// value of the type, as by a ghost field of it, is true of the value that a turn finds, and so of the trail that a
/// pass has seen.
pub trait Trailed {
    /// What the trail is made of.
    type Entry;

    ghost trail: { Self → List Self.Entry };

    ghost mark: { Self → ℕ };
}
