//! A version's root as it is kept: eight bytes.
ghost use Rattle.std.specs.Prelude.{◌≡◌, ◌+◌, ◌^◌, ◌<◌};
ghost use Rattle.std.specs.Option.{ForSome};

use crate::kept::link::{kept_of, link_of};
use crate::kept::root::Root;
use crate::size::Size;
use std::marker::Model;

// Each kept link is below this: 2^22.
const LINKS: u64 = 4_194_304;

// A tree shows fewer elements than this: 2^18.
const SHOWN: u64 = 262_144;

/// A root in one number: its link, how many elements are shown, and how many units those have.
#[derive(Drop)]
pub struct PackedRoot {
    kept: u64,
}

const _: () = prove!(size_of::<PackedRoot>() == 8);

impl Model for PackedRoot {
    ghost use Rattle.counted_tree.specs.declared.kept.root.Root.{Root};

    ghost Value = { Root };

    ghost use Rattle.counted_tree.specs.Internal.PackedRoot.{unpacked_root};

    ghost view = { λ r. unpacked_root r.kept };
}

impl PackedRoot {
    /// A root, to be kept.
    pub fn new(root: Root) -> PackedRoot
        requires link { ForSome root.link (λ k. k + 1 < 2 ^ 22) }
        requires shown { root.size.shown < 2 ^ 18 }
        requires units { root.size.units < 2 ^ 19 }
        ensures { result ≡ root }
    {
        let counts = u64::from(root.size.units) * SHOWN + u64::from(root.size.shown);
        PackedRoot {
            kept: counts * LINKS + u64::from(kept_of(root.link)),
        }
    }

    /// The root.
    pub fn get(&self) -> Root
        ensures { result ≡ self.now }
    {
        let counts = self.kept / LINKS;
        Root {
            link: link_of((self.kept % LINKS) as u32),
            size: Size {
                shown: (counts % SHOWN) as u32,
                units: (counts / SHOWN) as u32,
            },
        }
    }
}
