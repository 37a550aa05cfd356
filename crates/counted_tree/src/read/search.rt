//! The way down a tree to what stands at a place.
ghost use Rattle.std.specs.Prelude.{◌≡◌, ◌+◌, ◌*◌, ◌≤◌, length, slice_get, IsSome};
ghost use Rattle.counted_tree.specs.Digits.{digits};
ghost use Rattle.counted_tree.specs.Steps.{IsCounted};
ghost use Rattle.counted_tree.specs.Entry.{items};
ghost use Rattle.counted_tree.specs.Internal.Arena.{IsLinkBelow, AreSound, list_of};

use crate::kept::nodes::Nodes;
use crate::steps::Steps;

/// What the tree under a root shows at place `k`, in units or in elements: the element, and in units which of its units.
pub fn find_in(
    nodes: &Nodes,
    root: Option<u32>,
    in_units: bool,
    k: usize,
    steps: &mut Steps,
) -> Option<(u32, u8)>
    requires sound { AreSound nodes.now.nodes }
    requires root { IsLinkBelow (length nodes.now.nodes) root }
    ensures found { result ≡ slice_get (items in_units (list_of nodes.now.nodes root)) k }
    ensures cost { steps.new ≤ steps.old + 2 * digits (length (list_of nodes.now.nodes root)) }
    ensures counted { IsSome result → IsCounted steps.old steps.new }
{
    let mut link = root;
    let mut place = k;
    while let Some(at) = link {
        let node = nodes.look(at, steps);
        let left = node.left_size.items(in_units);
        let here = node.entry.items(in_units) as usize;
        if place < left {
            link = node.left;
        } else if place - left < here {
            return Some((node.entry.elem, (place - left) as u8));
        } else {
            place -= left + here;
            link = node.right;
        }
    }
    None
}
