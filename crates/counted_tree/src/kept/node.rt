//! A node of the tree: an element, its two subtrees by their numbers, and how much the left one shows.
ghost use Rattle.std.specs.Prelude.{◌≡◌};
ghost use Rattle.counted_tree.specs.declared.kept.side.Side.TheVariants.{Left, Right};

use crate::entry::Entry;
use crate::kept::side::Side;
use crate::size::Size;

/// A node. A subtree is named by the number of its top node.
#[derive(Clone, Copy)]
pub struct Node {
    pub entry: Entry,
    pub left: Option<u32>,
    pub right: Option<u32>,
    /// How much the left subtree shows. What the right one shows is known where one comes from: it is what is left of the whole.
    pub left_size: Size,
}

impl Node {
    /// The link to one of its sides.
    pub fn side(&self, side: Side) -> Option<u32>
        ensures left { side ≡ Left → result ≡ self.now.left }
        ensures right { side ≡ Right → result ≡ self.now.right }
    {
        match side {
            Side::Left => self.left,
            Side::Right => self.right,
        }
    }
}
