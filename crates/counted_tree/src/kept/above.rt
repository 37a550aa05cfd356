//! Where an element of the newest list hangs.
use crate::kept::side::Side;

/// The element above another, and on which of its sides that one hangs.
#[derive(Clone, Copy)]
pub struct Above {
    pub elem: u32,
    pub side: Side,
}
