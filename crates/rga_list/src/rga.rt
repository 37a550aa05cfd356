//! The replicated list: the walk, deletion, and what can be read (Roh, Jeon, Kim and Lee 2011).
ghost use Rattle.std.specs.Prelude.{◌≡◌, ◌≢◌, ◌<◌, ◌≤◌, ◌+◌, ◌-◌, ◌⊎◌, ℕ, List, [], ◌∷◌, ◌++◌, Option, Some, None, true, length, max};
ghost use Rattle.std.specs.Prelude.{false, option_and_then, IfSome, IfNone, IfOk, IfErr, OnOk, OnErr};
ghost use Rattle.std.specs.List.{AllByRecursion};
ghost use Rattle.opid.specs.declared.kind.OpKind.TheVariants as kinds;
ghost use Rattle.opid.specs.declared.refusal.Refusal.TheVariants.{UnknownElement, Memory};
ghost use Rattle.opid.specs.declared.stamp.Stamp.{Stamp};
ghost use Rattle.opid.specs.Operations.{Operation, stamp_of};
ghost use Rattle.opid.specs.Lawful.{IsSound};
ghost use Rattle.rga_list.specs.Entries.{Entry, LinkedElements, placed, behind, put_behind, elem_of, entry_of, next_of, elem_before};
ghost use Rattle.rga_list.specs.Entries.{has_stamp, IsAboveItsSite, IsGreatestOf, parent_refusal, refusal_of, hidden, is_shown, AreOfOwn};
ghost use Rattle.rga_list.specs.Internal.Links.{ids_at};
ghost use Rattle.rga_list.specs.Listed.{listed};

use crate::links::{Elem, Node, after, link, walk};
use crate::packed_node::PackedNode;
use crate::table::SiteTable;
use opid::{MAX_OPERATIONS, Refusal, SITES, Site, Stamp};
use std::alloc::Global;
use std::array;
use std::marker::Model;

/// The most elements of a list.
pub const LIMIT: usize = MAX_OPERATIONS;

// A reserve takes memory for at least so many insertions at a time.
const AT_ONCE: usize = 64;

/// Where an element was put in: the element itself, and the one right before it (`None`: it is the first).
#[derive(Clone, Copy, Debug, PartialEq, Eq)]
pub struct Place {
    pub elem: Elem,
    pub before: Option<Elem>,
}

/// Every element in the linked order, deleted ones too. An element is told by its number, the count of
/// elements that came before it, or by its stamp.
#[derive(Drop)]
pub struct Rga {
    first: Option<Elem>,
    nodes: Vec<PackedNode>,
    tables: [SiteTable; SITES],
    reserved: usize,
    // For so many insertions there is memory, of which `reserved` are promised.
    ahead: usize,
}

impl Model for Rga {
    ghost use Rattle.std.specs.Prelude.{◌≤◌, vec_len, vec_capacity};
    ghost use Rattle.rga_list.specs.Entries.{LinkedElements};

    ghost Value = { LinkedElements };

    ghost use Rattle.rga_list.specs.Internal.Links.{entries_of, IsList, AreReserved};

    ghost view = { λ a. record { entries = entries_of a.nodes.items a.first; reserved = a.reserved } };

    ghost invariant = { λ a. IsList a.nodes.items a.first a.tables × AreReserved (vec_len a.nodes) (vec_capacity a.nodes) a.tables a.ahead
        × (a.reserved ≤ a.ahead) };
}

impl Rga {
    /// The empty list. Constant time; takes no memory.
    pub fn new(alloc: Global) -> Self
        ensures { result ≡ record { entries = []; reserved = 0 } }
    {
        Rga {
            first: None,
            nodes: Vec::new(alloc),
            tables: array::from_fn(|_| SiteTable::new(alloc)),
            reserved: 0,
            ahead: 0,
        }
    }

    /// How many elements there are, deleted ones too. Constant time.
    pub fn len(&self) -> usize
        ensures value { result ≡ length self.now.entries }
        ensures within { result ≤ LIMIT }
        ensures own { AreOfOwn self.now.entries }
    {
        self.nodes.len()
    }

    /// The element with the stamp. Constant time where it is its site's last one, else steps logarithmic in the number of its
    /// site's elements.
    pub fn elem_of(&self, stamp: Stamp) -> Option<Elem>
        ensures value { result ≡ elem_of stamp self.now.entries }
        ensures within { IfSome result (λ k. k < length self.now.entries) }
    {
        self.tables[usize::from(stamp.site.number())].find(stamp.sum)
    }

    /// An element's stamp, its character, and whether it is shown. Constant time.
    pub fn get(&self, elem: Elem) -> (Stamp, char, bool)
        requires { elem < length self.now.entries }
        ensures { entry_of elem self.now.entries ≡ Some (record { elem = elem; stamp = result.0; ch = result.1; shown = result.2 }) }
    {
        let node = self.nodes[elem as usize].get();
        let ch = node.ch;
        (node.stamp, ch, node.shown)
    }

    /// The element right after this one in the linked order (`None`: the first one). `None` after the last,
    /// and where there is no such element. Constant time.
    pub fn next(&self, elem: Option<Elem>) -> Option<Elem>
        ensures value { result ≡ next_of elem self.now.entries }
        ensures within { IfSome result (λ k. k < length self.now.entries) }
    {
        match elem {
            None => self.first,
            Some(elem) => {
                if (elem as usize) < self.nodes.len() {
                    self.nodes[elem as usize].get().next
                } else {
                    None
                }
            }
        }
    }

    /// What `get` and `next` say of an element, read at once: its stamp, its character, whether it is shown, and the element right
    /// after it in the linked order (`None`: it is the last). Constant time.
    pub fn step(&self, elem: Elem) -> (Stamp, char, bool, Option<Elem>)
        requires { elem < length self.now.entries }
        ensures entry { entry_of elem self.now.entries ≡ Some (record { elem = elem; stamp = result.0; ch = result.1; shown = result.2 }) }
        ensures next { result.3 ≡ next_of (Some elem) self.now.entries }
        ensures within { IfSome result.3 (λ k. k < length self.now.entries) }
    {
        let node = self.nodes[elem as usize].get();
        let ch = node.ch;
        (node.stamp, ch, node.shown, node.next)
    }

    /// The greatest stamp of the site, if it inserted an element. Constant time.
    pub fn last_of(&self, site: Site) -> Option<Stamp>
        ensures some { IfSome result (λ stamp. IsGreatestOf self.now.entries site stamp) }
        ensures none { IfNone result (AllByRecursion (λ e. e.stamp.site ≢ site) self.now.entries) }

        // A stamp of the site with a greater sum may be inserted, and any if the site inserted none.
        ensures above { IfSome result (λ last. (s : Stamp) → s.site ≡ site → last.sum < s.sum → IsAboveItsSite self.now.entries s) }
        ensures free { IfNone result ((s : Stamp) → s.site ≡ site → IsAboveItsSite self.now.entries s) }
    {
        let sum = self.tables[usize::from(site.number())].last()?;
        Some(Stamp { sum, site })
    }

    /// Reserves memory for the next `n` insertions, so that they aren't refused with `Memory`. Constant time.
    /// Where it is there already none is taken; else it is taken for at least 64 insertions at a time. As any site may insert, each of the
    /// 32 tables gets memory for as many identifiers of 8 bytes, beside as many elements of 12: for 64 insertions that is
    /// some 17 KB, whose reserve is kept. Refused with `Memory`, only where fewer are reserved.
    pub fn reserve(&mut self, n: usize) -> Result<(), Refusal>
        ensures ok { OnOk result (self.new ≡ record self.old { reserved = max self.old.reserved n }) }
        ensures err { OnErr result (self.new ≡ self.old) }
        ensures memory { IfErr result (λ e. (e ≡ Memory) × (self.old.reserved < n)) }
    {
        if n <= self.ahead {
            self.reserved = self.reserved.max(n);
            return Ok(());
        }
        let more = n.max(AT_ONCE);
        self.nodes.reserve(more)?;
        reserve_each(&mut self.tables, more)?;
        self.ahead = more;
        self.reserved = n;
        Ok(())
    }

    /// Puts in an element that is shown: from behind its parent (`None`: from the head) past every greater
    /// stamp. Takes the steps of `elem_of` for the parent, and one for each element passed.
    ///
    /// Refused, in this order: `Full` with 131,072 elements, `UnknownElement` where the parent is no element,
    /// `NotOlder` where its stamp isn't smaller, `Memory` only where nothing is reserved.
    pub fn integrate_ins(
        &mut self,
        stamp: Stamp,
        parent: Option<Stamp>,
        ch: char,
    ) -> Result<Place, Refusal>
        requires { IsAboveItsSite self.old.entries stamp }

        // The element stands where the walk puts it, and the place tells where that is.
        ensures list { OnOk result (self.new ≡ record {
          entries = placed parent (record { elem = length self.old.entries; stamp = stamp; ch = ch; shown = true }) self.old.entries;
          reserved = self.old.reserved - 1;
        }) }
        ensures elem { IfOk result (λ place. place.elem ≡ length self.old.entries) }
        ensures grown { OnOk result (length self.new.entries ≡ length self.old.entries + 1) }
        ensures before { IfOk result (λ place. place.before ≡ elem_before place.elem None self.new.entries) }

        // Where the list shows operations, it then shows them with the insertion, which may follow them.
        ensures shows { OnOk result ((ops : List Operation) (x : Operation) → IsSound ops → stamp_of x ≡ stamp
            → x.kind ≡ kinds.Ins parent ch
            → self.old.entries ≡ listed ops → IsSound (ops ++ x ∷ []) × (self.new.entries ≡ listed (ops ++ x ∷ []))) }

        // Each cause, and only then; on a refusal the list is as before.
        ensures ok { OnOk result (refusal_of self.old.entries parent stamp ≡ None) }
        ensures cause { IfErr result (λ e. (refusal_of self.old.entries parent stamp ≡ Some e)
            ⊎ ((refusal_of self.old.entries parent stamp ≡ None) × (e ≡ Memory) × (self.old.reserved ≡ 0))) }
        ensures err { OnErr result (self.new ≡ self.old) }
    {
        if self.nodes.len() >= LIMIT {
            return Err(Refusal::Full);
        }
        let before = self.parent_of(&stamp, parent)?;
        let at = after(self.nodes.as_slice(), self.first, before);
        let last = walk(self.nodes.as_slice(), before, at, &stamp);
        let elem = self.insert_behind(stamp, ch, last)?;
        Ok(Place { elem, before: last })
    }

    /// Puts in an element that is shown, right behind another one (`None`: before all others): what `integrate_ins` does
    /// once its walk has ended, for who knows where that is. Constant time.
    ///
    /// Refused with `Memory`, only where nothing is reserved.
    pub fn insert_behind(
        &mut self,
        stamp: Stamp,
        ch: char,
        before: Option<Elem>,
    ) -> Result<Elem, Refusal>
        requires above { IsAboveItsSite self.old.entries stamp }
        requires few { length self.old.entries < LIMIT }
        requires there { IfSome before (λ k. k < length self.old.entries) }
        ensures list { OnOk result (self.new ≡ record {
          entries = put_behind before (record { elem = length self.old.entries; stamp = stamp; ch = ch; shown = true }) self.old.entries;
          reserved = self.old.reserved - 1;
        }) }
        ensures elem { IfOk result (λ elem. elem ≡ length self.old.entries) }
        ensures grown { OnOk result (length self.new.entries ≡ length self.old.entries + 1) }
        ensures before { IfOk result (λ elem. before ≡ elem_before elem None self.new.entries) }

        // Where the walk from a parent ends there, it is that parent's child.
        ensures placed { OnOk result ((parent : Option Stamp) → parent_refusal self.old.entries parent stamp ≡ None
            → before ≡ behind parent stamp self.old.entries → self.new.entries ≡ placed parent
            (record { elem = length self.old.entries; stamp = stamp; ch = ch; shown = true }) self.old.entries) }

        // Where the list shows operations, it then shows them with that insertion, which may follow them.
        ensures shows { OnOk result ((parent : Option Stamp) → parent_refusal self.old.entries parent stamp ≡ None
            → before ≡ behind parent stamp self.old.entries → (ops : List Operation) (x : Operation) → IsSound ops → stamp_of x ≡ stamp
            → x.kind ≡ kinds.Ins parent ch
            → self.old.entries ≡ listed ops → IsSound (ops ++ x ∷ []) × (self.new.entries ≡ listed (ops ++ x ∷ []))) }

        ensures memory { IfErr result (λ e. (e ≡ Memory) × (self.old.reserved ≡ 0)) }
        ensures err { OnErr result (self.new ≡ self.old) }
    {
        let next = after(self.nodes.as_slice(), self.first, before);
        self.nodes.reserve(1)?;
        let elem = self.nodes.len() as Elem;
        let site = usize::from(stamp.site.number());
        self.tables[site].push(stamp.sum, elem)?;
        let node = Node {
            stamp,
            ch,
            shown: true,
            next,
        };
        link(&mut self.nodes, &mut self.first, node, before);
        self.reserved = self.reserved.saturating_sub(1);
        self.ahead = self.ahead.saturating_sub(1);
        Ok(elem)
    }

    /// Hides the element with the stamp, which stays in the linked order, and says whether it was shown. Takes the
    /// steps of `elem_of`, and no memory. Refused with `UnknownElement` where the target is no element.
    pub fn integrate_del(&mut self, target: Stamp) -> Result<bool, Refusal>
        ensures list { OnOk result (self.new ≡ record self.old { entries = hidden target self.old.entries }) }
        ensures shown { IfOk result (λ shown. shown ≡ is_shown target self.old.entries) }

        // Where the list shows operations, it then shows them with the deletion, which may follow them.
        ensures shows { OnOk result ((ops : List Operation) (x : Operation) → IsSound ops → x.kind ≡ kinds.Del target
            → self.old.entries ≡ listed ops → IsSound (ops ++ x ∷ []) × (self.new.entries ≡ listed (ops ++ x ∷ []))) }

        ensures ok { OnOk result (has_stamp self.old.entries target ≡ true) }
        ensures cause { IfErr result (λ e. (e ≡ UnknownElement) × (has_stamp self.old.entries target ≡ false)) }
        ensures err { OnErr result (self.new ≡ self.old) }
    {
        match self.elem_of(target) {
            None => Err(Refusal::UnknownElement),
            Some(elem) => Ok(self.hide(elem)),
        }
    }

    /// Hides an element, which stays in the linked order, and says whether it was shown: what `integrate_del` does once it has
    /// found the element of its target, for who knows that. Constant time; takes no memory.
    pub fn hide(&mut self, elem: Elem) -> bool
        requires { elem < length self.old.entries }

        // The element is told by the one stamp that it has.
        ensures stamp { (target : Stamp) × (elem_of target self.old.entries ≡ Some elem) }
        ensures list { (target : Stamp) → elem_of target self.old.entries ≡ Some elem
            → self.new ≡ record self.old { entries = hidden target self.old.entries } }
        ensures shown { (target : Stamp) → elem_of target self.old.entries ≡ Some elem → result ≡ is_shown target self.old.entries }

        // Where the list shows operations, it then shows them with the deletion, which may follow them.
        ensures shows { (target : Stamp) → elem_of target self.old.entries ≡ Some elem → (ops : List Operation) (x : Operation)
            → IsSound ops → x.kind ≡ kinds.Del target → self.old.entries ≡ listed ops
            → IsSound (ops ++ x ∷ []) × (self.new.entries ≡ listed (ops ++ x ∷ [])) }
    {
        let node = &mut self.nodes[elem as usize];
        let shown = node.hide();
        shown
    }

    // The element of an insertion's parent (`None`: the head), if the insertion may follow it.
    fn parent_of(&self, stamp: &Stamp, parent: Option<Stamp>) -> Result<Option<Elem>, Refusal>
        ensures ok { OnOk result (parent_refusal self.now.entries parent stamp.now ≡ None) }
        ensures elem { IfOk result (λ elem. elem ≡ option_and_then (λ p. elem_of p self.now.entries) parent) }
        ensures cause { IfErr result (λ e. parent_refusal self.now.entries parent stamp.now ≡ Some e) }
    {
        match parent {
            None => Ok(None),
            Some(parent) => match self.elem_of(parent) {
                None => Err(Refusal::UnknownElement),
                Some(elem) => {
                    if parent < *stamp {
                        Ok(Some(elem))
                    } else {
                        Err(Refusal::NotOlder)
                    }
                }
            },
        }
    }
}

// Reserves memory for `n` more identifiers in each table.
fn reserve_each(tables: &mut [SiteTable], n: usize) -> Result<(), Refusal>
    ensures same { (k : ℕ) → (ids_at tables.new k).ids ≡ (ids_at tables.old k).ids }
    ensures kept { (k : ℕ) → (ids_at tables.old k).reserved ≤ (ids_at tables.new k).reserved }
    ensures ok { OnOk result ((k : ℕ) → k < length tables.old → n ≤ (ids_at tables.new k).reserved) }
    ensures memory { IfErr result (λ e. e ≡ Memory) }
{
    for table in tables.iter_mut() {
        table.reserve(n)?;
    }
    Ok(())
}
