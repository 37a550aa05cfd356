//! A node as it is kept: 12 bytes.
ghost use Rattle.std.specs.Prelude.{◌≡◌, ◌<◌, Some, false};
ghost use Rattle.std.specs.Option.{ForSome};

use crate::links::{Elem, Node};
use opid::{MAX_OPERATIONS, Site, Stamp};
use std::marker::Model;

// What stands for no next element: the first number that no element has.
const NONE: Elem = MAX_OPERATIONS as Elem;

// What stands beside the next element is below this: 2^6.
const BESIDE: u32 = 64;

/// A node. Its stamp is kept as sum and site, and what is small stands side by side in one number.
#[derive(Clone, Copy)]
pub struct PackedNode {
    sum: u32,
    ch: char,
    // The next element, the stamp's site, and whether the node is shown.
    next_site_shown: u32,
}

const _: () = prove!(size_of::<PackedNode>() == 12);

impl Model for PackedNode {
    ghost use Rattle.rga_list.specs.declared.links.Node.{Node};

    ghost Value = { Node };

    ghost use Rattle.rga_list.specs.Internal.Packed.{node_of, inside_of, inside_of-node_of};

    ghost view = { node_of };

    ghost inverse = { inside_of };

    ghost inverse_ok = { λ a h. inside_of-node_of a };
}

impl PackedNode {
    /// The node, to be kept.
    pub fn new(node: Node) -> PackedNode
        requires { ForSome node.next (λ k. k < MAX_OPERATIONS) }
        ensures { result ≡ node }
    {
        let Stamp { sum, site } = node.stamp;
        let ch = node.ch;
        let next = node.next.unwrap_or(NONE);
        let beside = u32::from(site.number()) * 2 + u32::from(node.shown);
        PackedNode {
            sum,
            ch,
            next_site_shown: next * BESIDE + beside,
        }
    }

    /// The node.
    pub fn get(&self) -> Node
        ensures { result ≡ self.now }
    {
        let next = self.next_site_shown / BESIDE;
        let Ok(site) = Site::new((self.next_site_shown % BESIDE / 2) as u8) else {
            unreachable!()
        };
        Node {
            stamp: Stamp {
                sum: self.sum,
                site,
            },
            ch: self.ch,
            shown: self.next_site_shown % 2 == 1,
            next: if next == NONE { None } else { Some(next) },
        }
    }

    /// Sets the element after it.
    pub fn set_next(&mut self, next: Elem)
        requires { next < MAX_OPERATIONS }
        ensures { self.new ≡ record self.old { next = Some next } }
    {
        self.next_site_shown = next * BESIDE + self.next_site_shown % BESIDE;
    }

    /// Hides it, and says whether it was shown.
    pub fn hide(&mut self) -> bool
        ensures node { self.new ≡ record self.old { shown = false } }
        ensures was { result ≡ self.old.shown }
    {
        let was = self.next_site_shown % 2 == 1;
        self.next_site_shown = self.next_site_shown / 2 * 2;
        was
    }
}
