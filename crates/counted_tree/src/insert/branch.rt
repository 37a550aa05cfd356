//! A tree beside what a node over it has to know.
ghost use Rattle.std.specs.Prelude.{◌≡◌, ◌+◌, ◌≤◌, length, None};
ghost use Rattle.counted_tree.specs.Internal.Arena.{IsLinkBelow, AreSound};
ghost use Rattle.counted_tree.specs.Internal.Branch.{IsBranchOf, IsBranch};
ghost use Rattle.counted_tree.specs.Internal.Change.{tree_in};
ghost use Rattle.counted_tree.specs.Internal.Table.{HasRow};
ghost use Rattle.counted_tree.specs.Internal.Tree.Tree.{Leaf};
ghost use Rattle.counted_tree.specs.Internal.Counter.{CountsOn};

use crate::entry::KEYS;
use crate::kept::build::look;
use crate::kept::nodes::Nodes;
use crate::kept::packed_row::PackedRow;
use crate::steps::Steps;

/// A tree by its link, and what a node over it and the newest tree's table take from it, so that the tree is looked at once.
#[derive(Clone, Copy)]
pub struct Branch {
    pub link: Option<u32>,
    /// The element at its top, if there is one.
    pub elem: u32,
    /// The least key in it, `KEYS` where it is empty.
    pub least: u32,
    pub height: u32,
}

impl Branch {
    /// The empty tree.
    pub fn empty() -> Branch
        ensures link { result.link ≡ None }
        ensures tells { IsBranchOf result Leaf }
    {
        Branch {
            link: None,
            elem: 0,
            least: KEYS,
            height: 0,
        }
    }
}

/// The part of the newest tree that a link names, of which the table has a row. Reads one node, or none where the tree is
/// empty.
pub fn branch_of(nodes: &Nodes, table: &[PackedRow], link: Option<u32>, steps: &mut Steps) -> Branch
    requires sound { AreSound nodes.now.nodes }
    requires link { IsLinkBelow (length nodes.now.nodes) link }
    requires row { HasRow table.now (tree_in nodes.now link) }
    ensures link { result.link ≡ link }
    ensures branch { IsBranch nodes.now result }
    ensures cost { steps.new ≤ steps.old + 1 }
    ensures counts_on { CountsOn steps.old steps.new }
{
    let Some(at) = link else {
        return Branch::empty();
    };
    let elem = look(nodes, at, steps).entry.elem;
    let row = table[elem as usize].get();
    Branch {
        link,
        elem,
        least: row.least,
        height: row.height,
    }
}
