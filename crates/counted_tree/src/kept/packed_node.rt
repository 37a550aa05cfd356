//! A node as it is kept.
ghost use Rattle.std.specs.Prelude.{◌≡◌, ℕ, ◌+◌, ◌^◌, ◌<◌, ◌≤◌, Some};
ghost use Rattle.std.specs.Option.{ForSome};
ghost use Rattle.counted_tree.specs.Internal.Keys.{key_and_width_of};
ghost use Rattle.counted_tree.specs.Internal.PackedNode.{elem_of, shown_of, wide_of, node_of};

use crate::entry::Entry;
use crate::kept::link::{kept_of, link_of};
use crate::kept::node::Node;
use crate::size::Size;

// The upper part of each count is below this: 2^10.
const UPPER: u32 = 1_024;

// The lower part of each count is below this: 2^7.
const LOWER: u32 = 128;

/// A node in 12 bytes: what is small stands side by side in one number. Each count of the left side's entries is split in two
/// parts. Its element's key and width stand elsewhere, once for all nodes of the element, and the least key and the height of
/// its tree in the newest tree's table.
#[derive(Clone, Copy)]
pub struct PackedNode {
    /// The link to the left side, and the upper part of how many elements that side shows.
    pub left: u32,
    /// The link to the right side, and the upper part of how many of those elements have two units.
    pub right: u32,
    /// Its element, the lower parts of both counts, and whether its element is shown.
    pub elem_and_counts: u32,
}

const _: () = prove!(size_of::<PackedNode>() == 12);

/// A node, to be kept.
#[inline(always)]
pub fn pack(node: Node) -> PackedNode
    requires left { ForSome node.left (λ k. k + 1 < 2 ^ 22) }
    requires right { ForSome node.right (λ k. k + 1 < 2 ^ 22) }
    requires elem { node.entry.elem < 2 ^ 17 }
    requires shown { node.left_size.shown < 2 ^ 17 }
    requires units { node.left_size.shown ≤ node.left_size.units }
    requires wide { node.left_size.units < node.left_size.shown + 2 ^ 17 }
    ensures node { node_of (key_and_width_of node.entry) result ≡ node }
    ensures elem { elem_of result ≡ node.entry.elem }
{
    let shown = node.left_size.shown;
    let wide = node.left_size.units - shown;
    let counts = (node.entry.elem * LOWER + shown % LOWER) * LOWER + wide % LOWER;
    PackedNode {
        left: kept_of(node.left) * UPPER + shown / LOWER,
        right: kept_of(node.right) * UPPER + wide / LOWER,
        elem_and_counts: counts * 2 + u32::from(node.entry.shown),
    }
}

/// The node that is kept so with another left side, which shows so much.
#[inline(always)]
pub fn with_left(packed: PackedNode, left: u32, size: Size) -> PackedNode
    requires left { left + 1 < 2 ^ 22 }
    requires shown { size.shown < 2 ^ 17 }
    requires units { size.shown ≤ size.units }
    requires wide { size.units < size.shown + 2 ^ 17 }
    ensures node { (key_and_width : ℕ)
        → node_of key_and_width result ≡ record (node_of key_and_width packed) { left = Some left; left_size = size } }
    ensures elem { elem_of result ≡ elem_of packed }
{
    let shown = size.shown;
    let wide = size.units - shown;
    let counts = (elem_of(packed) * LOWER + shown % LOWER) * LOWER + wide % LOWER;
    PackedNode {
        left: kept_of(Some(left)) * UPPER + shown / LOWER,
        right: packed.right / UPPER * UPPER + wide / LOWER,
        elem_and_counts: counts * 2 + packed.elem_and_counts % 2,
    }
}

/// The node that is kept so with another right side.
#[inline(always)]
pub fn with_right(packed: PackedNode, right: u32) -> PackedNode
    requires right { right + 1 < 2 ^ 22 }
    ensures node { (key_and_width : ℕ) → node_of key_and_width result ≡ record (node_of key_and_width packed) { right = Some right } }
    ensures elem { elem_of result ≡ elem_of packed }
{
    PackedNode {
        right: kept_of(Some(right)) * UPPER + packed.right % UPPER,
        ..packed
    }
}

/// The element of the node that is kept so.
pub fn elem_of(packed: PackedNode) -> u32
    ensures { result ≡ elem_of packed }
{
    packed.elem_and_counts / 2 / LOWER / LOWER
}

// How many elements the left side of the node that is kept so shows.
fn shown_of(packed: PackedNode) -> u32
    ensures value { result ≡ shown_of packed }
    ensures small { result < 2 ^ 17 }
{
    packed.left % UPPER * LOWER + packed.elem_and_counts / 2 / LOWER % LOWER
}

// How many of these have two units.
fn wide_of(packed: PackedNode) -> u32
    ensures value { result ≡ wide_of packed }
    ensures small { result < 2 ^ 17 }
{
    packed.right % UPPER * LOWER + packed.elem_and_counts / 2 % LOWER
}

/// The node that is kept so, where its element's key and width are kept as the given number.
#[inline(always)]
pub fn unpack(packed: PackedNode, key_and_width: u32) -> Node
    ensures { result ≡ node_of key_and_width packed }
{
    let shown = shown_of(packed);
    Node {
        entry: Entry {
            elem: elem_of(packed),
            shown: packed.elem_and_counts % 2 == 1,
            wide: key_and_width % 2 == 1,
            key: key_and_width / 2,
        },
        left: link_of(packed.left / UPPER),
        right: link_of(packed.right / UPPER),
        left_size: Size {
            shown,
            units: shown + wide_of(packed),
        },
    }
}
