//! What becomes of an operation that is delivered.

/// The outcome of a delivery.
#[derive(Clone, Copy, Debug, PartialEq, Eq)]
pub enum Delivery {
    /// It was integrated. `taken` counts it and those held back that were integrated after it, `dropped` those held
    /// back that became ready and were refused.
    Took { taken: u32, dropped: u32 },
    /// Its causal past isn't there yet, so it is held back.
    Kept,
    /// It is integrated or held back already: it came again.
    Again,
}
