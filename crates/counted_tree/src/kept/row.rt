//! What the newest tree's table tells of an element.
ghost use Rattle.std.specs.Prelude.{◌≡◌, ◌^◌, None};

use crate::entry::KEYS;
use crate::kept::above::Above;

/// What an element of the newest tree hangs from, if it isn't at the top, and what the nodes above have to know of the subtree
/// that it tops.
#[derive(Clone, Copy)]
pub struct Row {
    pub above: Option<Above>,
    /// The least key in the subtree.
    pub least: u32,
    pub height: u32,
}

impl Row {
    /// That of an element that stands nowhere yet.
    pub fn empty() -> Row
        ensures { result ≡ record { above = None; least = 2 ^ 23; height = 0 } }
    {
        Row {
            above: None,
            least: KEYS,
            height: 0,
        }
    }
}
