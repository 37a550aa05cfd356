//! A version's tree by its link.
use crate::size::Size;

/// The link to the top node, and how much the tree shows.
#[derive(Clone, Copy)]
pub struct Root {
    pub link: Option<u32>,
    pub size: Size,
}
