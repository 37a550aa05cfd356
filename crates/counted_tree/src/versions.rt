//! The version tree: one root for each version over nodes that all versions share (a persistent tree by copies of the
//! path, Driscoll, Sarnak, Sleator, Tarjan 1989; balanced as by Adelson-Velsky and Landis 1962).
ghost use Rattle.std.specs.Prelude.{◌≡◌, ℕ, ◌+◌, ◌*◌, ◌<◌, ◌≤◌, ◌^◌, [], ◌∷◌, ◌++◌, length, slice_get, true, max, IsSome, IfSome, OnOk};
ghost use Rattle.std.specs.Prelude.{OnErr};
ghost use Rattle.counted_tree.specs.Digits.{digits};
ghost use Rattle.counted_tree.specs.Entry.{visible, units};
ghost use Rattle.counted_tree.specs.Versions.{version_list, newest, newest_list};
ghost use Rattle.counted_tree.specs.Internal.Roots.{newest_root, no_root, root_at};
ghost use Rattle.counted_tree.specs.Changes.{Lists, Shows, put, hidden, before as entries_before};
ghost use Rattle.counted_tree.specs.Greater.{last_greater};
ghost use Rattle.counted_tree.specs.Steps.{IsCounted};

use crate::entry::{Entry, MAX_ELEMENTS};
use crate::hide::hide;
use crate::insert::insert;
use crate::kept::nodes::Nodes;
use crate::kept::packed_root::PackedRoot;
use crate::kept::packed_row::PackedRow;
use crate::kept::root::Root;
use crate::read::greater::last_greater_in;
use crate::read::rank::rank_in;
use crate::read::search::find_in;
use crate::read::walk::push_shown_in;
use crate::size::Size;
use crate::steps::Steps;
use std::alloc::{AllocError, Global};
use std::marker::Model;

/// The list of each version, from the empty one on. An element is known by its number, the count of those that came
/// before it; it stays in the list when it is hidden. A step is a look at a node. A call about an element in the newest
/// version first climbs from it by the table of what hangs from what, along at most 25 rows; the climb looks at no node and isn't
/// counted.
#[derive(Drop)]
pub struct VersionTree {
    nodes: Nodes,
    table: Vec<PackedRow>,
    roots: Vec<PackedRoot>,
    reserved: usize,
}

impl Model for VersionTree {
    ghost use Rattle.std.specs.Prelude.{◌≡◌, ◌+◌, ◌≤◌, length, vec_len, vec_capacity};
    ghost use Rattle.counted_tree.specs.Versions.{Versions};
    ghost use Rattle.counted_tree.specs.Internal.Roots.{newest_root, lists_of, AreVersions};
    ghost use Rattle.counted_tree.specs.Internal.Change.{tree_in};
    ghost use Rattle.counted_tree.specs.Internal.Table.{IsNewest};

    ghost Value = { Versions };

    ghost view = { λ a. record { lists = lists_of a.nodes.nodes a.roots.items; nodes = length a.nodes.nodes; reserved = a.reserved } };

    ghost invariant = { λ a. AreVersions a.nodes a.roots.items a.reserved
        × IsNewest a.table.items (tree_in a.nodes (newest_root a.roots.items).link)
        × (vec_len a.roots + a.reserved ≤ vec_capacity a.roots) × (vec_len a.table + a.reserved ≤ vec_capacity a.table)
        × (length a.nodes.keys_and_widths ≡ vec_len a.table) × (a.reserved ≤ a.nodes.reserved_keys_and_widths) };
}

impl VersionTree {
    /// Version 0 alone, which is empty. Constant time; takes no memory.
    pub fn new(alloc: Global) -> VersionTree
        ensures lists { result.lists ≡ [] ∷ [] }
        ensures nodes { result.nodes ≡ 0 }
        ensures reserved { result.reserved ≡ 0 }
    {
        VersionTree {
            nodes: Nodes::new(alloc),
            table: Vec::new(alloc),
            roots: Vec::new(alloc),
            reserved: 0,
        }
    }

    /// How many nodes stand for all versions, 12 bytes each. Constant time.
    pub fn nodes(&self) -> usize
        ensures value { result ≡ self.now.nodes }
        ensures few { result ≤ 40 * newest self.now }
    {
        self.nodes.len()
    }

    /// The newest version's number. Constant time.
    pub fn newest(&self) -> usize
        ensures value { result ≡ newest self.now }
        ensures last { result + 1 ≡ length self.now.lists }
        ensures within { result + self.now.reserved ≤ MAX_ELEMENTS }
    {
        self.roots.len()
    }

    /// How many versions are reserved and not yet added: what the papers call its room. Constant time.
    pub fn room(&self) -> usize
        ensures { result ≡ self.now.reserved }
    {
        self.reserved
    }

    /// How many elements the newest version has, shown or not: the number of the next one. Constant time.
    pub fn elements(&self) -> usize
        ensures value { result ≡ length (newest_list self.now) }
        ensures within { result ≤ MAX_ELEMENTS }
        ensures all { (e : ℕ) → e < result → Lists e (newest_list self.now) }
    {
        self.table.len()
    }

    /// The `k`-th shown element of a version, if it shows so many. Takes no memory, and at most twice as many steps as
    /// the number of the version's elements has binary digits: 36 in the longest log.
    pub fn find(&self, version: usize, k: usize, steps: &mut Steps) -> Option<u32>
        requires { version < length self.now.lists }
        ensures found { result ≡ slice_get (visible (version_list self.now version)) k }
        ensures cost { steps.new ≤ steps.old + 2 * digits (length (version_list self.now version)) }
        ensures counted { IsSome result → IsCounted steps.old steps.new }
    {
        let root = root_of(self.roots.as_slice(), version);
        let (elem, _) = find_in(&self.nodes, root.link, false, k, steps)?;
        Some(elem)
    }

    /// The element that has the `k`-th unit of what a version shows, if there are so many, and 1 where that is the second
    /// of its two units, else 0. Takes no memory, and at most as many steps as `find` may.
    pub fn find_units(&self, version: usize, k: usize, steps: &mut Steps) -> Option<(u32, u8)>
        requires { version < length self.now.lists }
        ensures found { result ≡ slice_get (units (version_list self.now version)) k }
        ensures cost { steps.new ≤ steps.old + 2 * digits (length (version_list self.now version)) }
        ensures counted { IsSome result → IsCounted steps.old steps.new }
    {
        let root = root_of(self.roots.as_slice(), version);
        find_in(&self.nodes, root.link, true, k, steps)
    }

    /// Appends the elements that a version shows, in order, by one pass over its tree that leaves out parts which show nothing.
    /// Takes at most one step for each of the version's elements, and at most 36 for each that is shown: twice the binary digits of
    /// the number of the version's elements. Takes memory for those that are shown, 4 bytes each; where it is refused nothing is
    /// appended.
    pub fn push_shown(
        &self,
        version: usize,
        into: &mut Vec<u32>,
        steps: &mut Steps,
    ) -> Result<(), AllocError>
        requires { version < length self.now.lists }
        ensures shown { OnOk result (into.new.items ≡ into.old.items ++ visible (version_list self.now version)) }
        ensures err { OnErr result (into.new.items ≡ into.old.items) }
        ensures cost { steps.new ≤ steps.old + length (version_list self.now version) }
        ensures few { steps.new ≤ steps.old
            + length (visible (version_list self.now version)) * (2 * digits (length (version_list self.now version))) }
        ensures counted { OnOk result (0 < length (visible (version_list self.now version)) → IsCounted steps.old steps.new) }
    {
        let root = root_of(self.roots.as_slice(), version);
        let shown = root.size.shown;
        into.reserve(shown as usize)?;
        push_shown_in(&self.nodes, root.link, shown, into, steps);
        Ok(())
    }

    /// How many elements a version shows. Constant time.
    pub fn shown(&self, version: usize) -> usize
        requires { version < length self.now.lists }
        ensures { result ≡ length (visible (version_list self.now version)) }
    {
        root_of(self.roots.as_slice(), version).size.items(false)
    }

    /// How many units the elements that a version shows have. Constant time.
    pub fn units(&self, version: usize) -> usize
        requires { version < length self.now.lists }
        ensures { result ≡ length (units (version_list self.now version)) }
    {
        root_of(self.roots.as_slice(), version).size.items(true)
    }

    /// How many shown elements stand before one in the newest version, and how many units these have. Takes no
    /// memory. Climbs from the element, and takes at most as many steps as `find` may.
    pub fn ranks(&self, elem: u32, steps: &mut Steps) -> Size
        requires { Lists elem (newest_list self.now) }
        ensures shown { result.shown ≡ length (visible (entries_before elem (newest_list self.now))) }
        ensures units { result.units ≡ length (units (entries_before elem (newest_list self.now))) }
        ensures few { (result.shown ≤ MAX_ELEMENTS) × (result.units ≤ 2 * MAX_ELEMENTS) }
        ensures cost { steps.new ≤ steps.old + 2 * digits (length (newest_list self.now)) }
        ensures counted { IsCounted steps.old steps.new }
    {
        let root = last_root(self.roots.as_slice());
        rank_in(&self.nodes, self.table.as_slice(), root.link, elem, steps)
    }

    /// How many shown elements stand before one in the newest version. Costs what `ranks` costs.
    pub fn rank(&self, elem: u32, steps: &mut Steps) -> usize
        requires { Lists elem (newest_list self.now) }
        ensures rank { result ≡ length (visible (entries_before elem (newest_list self.now))) }
        ensures few { result ≤ MAX_ELEMENTS }
        ensures cost { steps.new ≤ steps.old + 2 * digits (length (newest_list self.now)) }
        ensures counted { IsCounted steps.old steps.new }
    {
        self.ranks(elem, steps).shown as usize
    }

    /// How many units the shown elements before one have in the newest version. Costs what `ranks` costs.
    pub fn rank_units(&self, elem: u32, steps: &mut Steps) -> usize
        requires { Lists elem (newest_list self.now) }
        ensures rank { result ≡ length (units (entries_before elem (newest_list self.now))) }
        ensures few { result ≤ 2 * MAX_ELEMENTS }
        ensures cost { steps.new ≤ steps.old + 2 * digits (length (newest_list self.now)) }
        ensures counted { IsCounted steps.old steps.new }
    {
        self.ranks(elem, steps).units as usize
    }

    /// The last element that one passes in the newest version, going right from an element, or from before all others, as
    /// long as the keys are greater than the given one: where none is passed, the element itself, or none. Takes no memory.
    /// Climbs from the element, if there is one, and takes at most six times as many steps as the number of elements has binary
    /// digits, however many are passed.
    pub fn last_greater(&self, before: Option<u32>, key: u32, steps: &mut Steps) -> Option<u32>
        requires there { IfSome before (λ e. Lists e (newest_list self.now)) }
        ensures last { result ≡ last_greater before key (newest_list self.now) }
        ensures cost { steps.new ≤ steps.old + 6 * digits (length (newest_list self.now)) }
        ensures counted { 0 < length (newest_list self.now) → IsCounted steps.old steps.new }
    {
        let root = last_root(self.roots.as_slice());
        last_greater_in(
            &self.nodes,
            self.table.as_slice(),
            root.link,
            before,
            key,
            steps,
        )
    }

    /// Reserves `n` versions, if fewer are reserved: for each 31 nodes of 12 bytes, a row of the table of 8, a root of 8, and 4 for
    /// the element's key and width, 392 bytes of which only what is written comes into memory. Constant time; nothing grows where so
    /// many are reserved already. Refused memory changes nothing.
    pub fn reserve(&mut self, n: usize) -> Result<(), AllocError>
        requires { length self.old.lists + n ≤ MAX_ELEMENTS + 1 }
        ensures lists { self.new.lists ≡ self.old.lists }
        ensures nodes { self.new.nodes ≡ self.old.nodes }
        ensures ok { OnOk result (self.new.reserved ≡ max self.old.reserved n) }
        ensures err { OnErr result (self.new.reserved ≡ self.old.reserved) }
        ensures memory { OnErr result (self.old.reserved < n) }
    {
        if self.reserved < n {
            self.nodes.reserve(31 * n)?;
            self.nodes.reserve_keys_and_widths(n)?;
            self.table.reserve(n)?;
            self.roots.reserve(n)?;
            self.reserved = n;
        }
        Ok(())
    }

    /// Adds a version with a further element, shown, right after another one, or before all others: its key, below 2^23,
    /// and whether it has two units stay with it for good. Tells how many shown elements stand before it, and how many units
    /// these have, as `ranks` would. Takes memory from the reserve alone. Climbs from the element before, if there is one, and
    /// takes at most four steps for each node that it makes, so 160 in the longest log, and one at least where there is an element.
    pub fn insert_after(
        &mut self,
        before: Option<u32>,
        elem: u32,
        key: u32,
        wide: bool,
        steps: &mut Steps,
    ) -> Size
        requires reserved { 1 ≤ self.old.reserved }
        requires there { IfSome before (λ e. Lists e (newest_list self.old)) }
        requires number { elem ≡ length (newest_list self.old) }
        requires key { key < 2 ^ 23 }
        ensures lists { self.new.lists
            ≡ self.old.lists ++ put before (record { elem = elem; shown = true; wide = wide; key = key }) (newest_list self.old) ∷ [] }
        ensures nodes { self.new.nodes ≤ self.old.nodes + (2 * digits (length (newest_list self.new)) + 4) }
        ensures at_most { self.new.nodes ≤ self.old.nodes + 40 }
        ensures reserved { self.new.reserved + 1 ≡ self.old.reserved }
        ensures shown { result.shown ≡ length (visible (entries_before elem (newest_list self.new))) }
        ensures units { result.units ≡ length (units (entries_before elem (newest_list self.new))) }
        ensures few { (result.shown ≤ MAX_ELEMENTS) × (result.units ≤ 2 * MAX_ELEMENTS) }
        ensures cost { steps.new ≤ steps.old + (8 * digits (length (newest_list self.new)) + 16) }
        ensures each { steps.new + 4 * self.old.nodes ≤ steps.old + 4 * self.new.nodes }
        ensures counted { 0 < length (newest_list self.old) → IsCounted steps.old steps.new }
    {
        let root = last_root(self.roots.as_slice());
        let entry = Entry {
            elem,
            shown: true,
            wide,
            key,
        };
        let (top, rank) = insert(
            &mut self.nodes,
            &mut self.table,
            root.link,
            before,
            entry,
            steps,
        );
        self.reserved -= 1;
        self.roots.push_reserved(PackedRoot::new(Root {
            link: Some(top),
            size: root.size.plus(Size::of(&entry)),
        }));
        rank
    }

    /// Adds a version with an element hidden. Takes memory from the reserve alone. Costs what `hide_ranked` costs.
    pub fn hide(&mut self, elem: u32)
        requires reserved { 1 ≤ self.old.reserved }
        requires shown { Shows elem (newest_list self.old) }
        ensures lists { self.new.lists ≡ self.old.lists ++ hidden elem (newest_list self.old) ∷ [] }
        ensures nodes { self.new.nodes ≤ self.old.nodes + (2 * digits (length (newest_list self.new)) + 4) }
        ensures at_most { self.new.nodes ≤ self.old.nodes + 40 }
        ensures reserved { self.new.reserved + 1 ≡ self.old.reserved }
    {
        let mut steps = Steps::new();
        let _rank = self.hide_ranked(elem, &mut steps);
    }

    /// The same, and tells how many shown elements stand before it, and how many units these have, as `ranks` would before. Climbs
    /// from the element, and takes at most as many steps as `ranks` may, and at most one for each node that it makes.
    pub fn hide_ranked(&mut self, elem: u32, steps: &mut Steps) -> Size
        requires reserved { 1 ≤ self.old.reserved }
        requires shown { Shows elem (newest_list self.old) }
        ensures lists { self.new.lists ≡ self.old.lists ++ hidden elem (newest_list self.old) ∷ [] }
        ensures nodes { self.new.nodes ≤ self.old.nodes + (2 * digits (length (newest_list self.new)) + 4) }
        ensures at_most { self.new.nodes ≤ self.old.nodes + 40 }
        ensures reserved { self.new.reserved + 1 ≡ self.old.reserved }
        ensures shown { result.shown ≡ length (visible (entries_before elem (newest_list self.old))) }
        ensures units { result.units ≡ length (units (entries_before elem (newest_list self.old))) }
        ensures few { (result.shown ≤ MAX_ELEMENTS) × (result.units ≤ 2 * MAX_ELEMENTS) }
        ensures cost { steps.new ≤ steps.old + 2 * digits (length (newest_list self.old)) }
        ensures each { steps.new + self.old.nodes ≤ steps.old + self.new.nodes }
        ensures counted { IsCounted steps.old steps.new }
    {
        let root = last_root(self.roots.as_slice());
        let hidden = hide(
            &mut self.nodes,
            self.table.as_slice(),
            root.link,
            elem,
            steps,
        );
        self.reserved -= 1;
        self.roots.push_reserved(PackedRoot::new(Root {
            link: Some(hidden.top),
            size: root.size.minus(hidden.less),
        }));
        hidden.rank
    }

    /// Adds a version with the newest list again. Constant time.
    pub fn mark(&mut self)
        requires { 1 ≤ self.old.reserved }
        ensures lists { self.new.lists ≡ self.old.lists ++ newest_list self.old ∷ [] }
        ensures nodes { self.new.nodes ≡ self.old.nodes }
        ensures reserved { self.new.reserved + 1 ≡ self.old.reserved }
    {
        let root = last_root(self.roots.as_slice());
        self.reserved -= 1;
        self.roots.push_reserved(PackedRoot::new(root));
    }
}

// A version's root, for version 0 that of the empty tree.
fn root_of(roots: &[PackedRoot], version: usize) -> Root
    requires { version ≤ length roots.now }
    ensures { result ≡ root_at roots.now version }
{
    if version == 0 {
        empty()
    } else {
        roots[version - 1].get()
    }
}

// The newest root.
fn last_root(roots: &[PackedRoot]) -> Root
    ensures { result ≡ newest_root roots.now }
{
    match roots.last() {
        Some(root) => root.get(),
        None => empty(),
    }
}

// The root of the empty tree.
fn empty() -> Root
    ensures { result ≡ no_root }
{
    Root {
        link: None,
        size: Size::none(),
    }
}
