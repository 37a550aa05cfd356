//! The nodes of all versions, in a vector that only grows, and beside them the key and the width of each element. `look` is the one
//! call that tells what a node holds, and it counts a step. `push_with_left` and `push_with_right` copy one, and tell nothing of it.
ghost use Rattle.std.specs.Prelude.{◌≡◌, ◌-◌, min, ◌+◌, ◌^◌, ◌<◌, ◌≤◌, [], ◌∷◌, ◌++◌, length, slice_get, Some, max, OnOk, OnErr};
ghost use Rattle.counted_tree.specs.Internal.Keys.{IsKnown, key_and_width_of};
ghost use Rattle.counted_tree.specs.declared.kept.node.Node.{Node};
ghost use Rattle.counted_tree.specs.Internal.Arena.{IsLinkBelow};
ghost use Rattle.counted_tree.specs.Internal.Store.{with_element};

use crate::entry::Entry;
use crate::kept::node::Node;
use crate::kept::packed_node::{PackedNode, elem_of, pack, unpack, with_left, with_right};
use crate::size::Size;
use crate::steps::Steps;
use std::alloc::{AllocError, Global};
use std::marker::Model;

/// The nodes and for how many more memory is reserved, and the same of what is kept of each element: its key and width as one number.
#[derive(Drop)]
pub struct Nodes {
    nodes: Vec<PackedNode>,
    reserved_nodes: usize,
    keys_and_widths: Vec<u32>,
    reserved_keys_and_widths: usize,
}

impl Model for Nodes {
    ghost use Rattle.std.specs.Prelude.{◌+◌, ◌^◌, ◌<◌, ◌≤◌, length, vec_len, vec_capacity};
    ghost use Rattle.counted_tree.specs.Internal.Store.{Store, nodes_of, AreElemsBelow};

    ghost Value = { Store };

    ghost view = { λ a. record {
      nodes = nodes_of a.keys_and_widths.items a.nodes.items;
      reserved_nodes = a.reserved_nodes;
      keys_and_widths = a.keys_and_widths.items;
      reserved_keys_and_widths = a.reserved_keys_and_widths;
    } };

    ghost invariant = { λ a. (vec_len a.nodes + a.reserved_nodes ≤ vec_capacity a.nodes) × (vec_len a.nodes + a.reserved_nodes < 2 ^ 22)
        × (vec_len a.keys_and_widths + a.reserved_keys_and_widths ≤ vec_capacity a.keys_and_widths)
        × AreElemsBelow (length a.keys_and_widths.items) a.nodes.items };
}

impl Nodes {
    pub fn new(alloc: Global) -> Nodes
        ensures { result ≡ record { nodes = []; reserved_nodes = 0; keys_and_widths = []; reserved_keys_and_widths = 0 } }
    {
        Nodes {
            nodes: Vec::new(alloc),
            reserved_nodes: 0,
            keys_and_widths: Vec::new(alloc),
            reserved_keys_and_widths: 0,
        }
    }

    pub fn len(&self) -> usize
        ensures { result ≡ length self.now.nodes }
    {
        self.nodes.len()
    }

    /// The node with this number, and a step is counted.
    pub fn look(&self, at: u32, steps: &mut Steps) -> Node
        requires { at < length self.now.nodes }
        ensures node { slice_get self.now.nodes at ≡ Some result }
        ensures told { slice_get self.now.keys_and_widths result.entry.elem ≡ Some (key_and_width_of result.entry) }
        ensures step { steps.new ≡ min (steps.old + 1) (2 ^ 64 - 1) }
    {
        steps.tick();
        let packed = self.nodes[at as usize];
        unpack(packed, self.keys_and_widths[elem_of(packed) as usize])
    }

    /// Appends a node, within the reserve, and tells its number.
    pub fn push(&mut self, node: Node) -> u32
        requires reserved { 0 < self.old.reserved_nodes }
        requires left { IsLinkBelow (length self.old.nodes) node.left }
        requires right { IsLinkBelow (length self.old.nodes) node.right }
        requires known { IsKnown self.old.keys_and_widths node.entry }
        requires shown { node.left_size.shown < 2 ^ 17 }
        requires units { node.left_size.shown ≤ node.left_size.units }
        requires wide { node.left_size.units < node.left_size.shown + 2 ^ 17 }
        ensures number { result ≡ length self.old.nodes }
        ensures nodes { self.new.nodes ≡ self.old.nodes ++ node ∷ [] }
        ensures reserved { self.new.reserved_nodes + 1 ≡ self.old.reserved_nodes }
        ensures keys_and_widths { self.new.keys_and_widths ≡ self.old.keys_and_widths }
        ensures reserved_keys_and_widths { self.new.reserved_keys_and_widths ≡ self.old.reserved_keys_and_widths }
    {
        let number = self.nodes.len() as u32;
        self.reserved_nodes -= 1;
        self.nodes.push_reserved(pack(node));
        number
    }

    /// Appends a copy of a node with another left side, which shows so much, within the reserve, and tells its number.
    pub fn push_with_left(&mut self, at: u32, left: u32, size: Size) -> u32
        requires reserved { 0 < self.old.reserved_nodes }
        requires number { at < length self.old.nodes }
        requires left { left < length self.old.nodes }
        requires shown { size.shown < 2 ^ 17 }
        requires units { size.shown ≤ size.units }
        requires wide { size.units < size.shown + 2 ^ 17 }
        ensures number { result ≡ length self.old.nodes }
        ensures nodes { (n : Node) → slice_get self.old.nodes at ≡ Some n
            → self.new.nodes ≡ self.old.nodes ++ record n { left = Some left; left_size = size } ∷ [] }
        ensures reserved { self.new.reserved_nodes + 1 ≡ self.old.reserved_nodes }
        ensures keys_and_widths { self.new.keys_and_widths ≡ self.old.keys_and_widths }
        ensures reserved_keys_and_widths { self.new.reserved_keys_and_widths ≡ self.old.reserved_keys_and_widths }
    {
        let number = self.nodes.len() as u32;
        let packed = self.nodes[at as usize];
        self.reserved_nodes -= 1;
        self.nodes.push_reserved(with_left(packed, left, size));
        number
    }

    /// Appends a copy of a node with another right side, within the reserve, and tells its number.
    pub fn push_with_right(&mut self, at: u32, right: u32) -> u32
        requires reserved { 0 < self.old.reserved_nodes }
        requires number { at < length self.old.nodes }
        requires right { right < length self.old.nodes }
        ensures number { result ≡ length self.old.nodes }
        ensures nodes { (n : Node) → slice_get self.old.nodes at ≡ Some n
            → self.new.nodes ≡ self.old.nodes ++ record n { right = Some right } ∷ [] }
        ensures reserved { self.new.reserved_nodes + 1 ≡ self.old.reserved_nodes }
        ensures keys_and_widths { self.new.keys_and_widths ≡ self.old.keys_and_widths }
        ensures reserved_keys_and_widths { self.new.reserved_keys_and_widths ≡ self.old.reserved_keys_and_widths }
    {
        let number = self.nodes.len() as u32;
        let packed = self.nodes[at as usize];
        self.reserved_nodes -= 1;
        self.nodes.push_reserved(with_right(packed, right));
        number
    }

    /// Appends the key and the width of the next element, within the reserve.
    pub fn push_key_and_width(&mut self, entry: &Entry)
        requires reserved { 0 < self.old.reserved_keys_and_widths }
        requires key { entry.now.key < 2 ^ 23 }
        ensures { self.new ≡ with_element self.old (key_and_width_of entry.now) }
    {
        self.reserved_keys_and_widths -= 1;
        self.keys_and_widths.push_reserved(entry.key_and_width());
    }

    /// Reserves `n` nodes, if fewer are reserved.
    pub fn reserve(&mut self, n: usize) -> Result<(), AllocError>
        requires { length self.old.nodes + n < 2 ^ 22 }
        ensures nodes { self.new.nodes ≡ self.old.nodes }
        ensures keys_and_widths { self.new.keys_and_widths ≡ self.old.keys_and_widths }
        ensures reserved_keys_and_widths { self.new.reserved_keys_and_widths ≡ self.old.reserved_keys_and_widths }
        ensures ok { OnOk result (self.new.reserved_nodes ≡ max self.old.reserved_nodes n) }
        ensures err { OnErr result (self.new ≡ self.old) }
    {
        if self.reserved_nodes < n {
            self.nodes.reserve(n)?;
            self.reserved_nodes = n;
        }
        Ok(())
    }

    /// Reserves the key and the width of `n` elements, if fewer are reserved.
    pub fn reserve_keys_and_widths(&mut self, n: usize) -> Result<(), AllocError>
        requires { length self.old.keys_and_widths + n < 2 ^ 32 }
        ensures nodes { self.new.nodes ≡ self.old.nodes }
        ensures reserved { self.new.reserved_nodes ≡ self.old.reserved_nodes }
        ensures keys_and_widths { self.new.keys_and_widths ≡ self.old.keys_and_widths }
        ensures ok { OnOk result (self.new.reserved_keys_and_widths ≡ max self.old.reserved_keys_and_widths n) }
        ensures err { OnErr result (self.new ≡ self.old) }
    {
        if self.reserved_keys_and_widths < n {
            self.keys_and_widths.reserve(n)?;
            self.reserved_keys_and_widths = n;
        }
        Ok(())
    }
}
