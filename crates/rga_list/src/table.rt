//! The identifiers of one site, in rising sum: which element each names (Roh and others 2011: the table beside
//! the linked order).
ghost use Rattle.std.specs.Prelude.{◌≡◌, ◌<◌, ◌-◌, [], ◌∷◌, ◌++◌, max, IfSome, IfNone, IfErr, OnOk, OnErr};
ghost use Rattle.std.specs.List.{AllByRecursion};
ghost use Rattle.opid.specs.declared.refusal.Refusal.TheVariants.{Memory};
ghost use Rattle.rga_list.specs.Internal.SiteIds.{SiteIds, find_id, IsGreatest};

use crate::links::Elem;
use opid::Refusal;
use std::alloc::Global;
use std::marker::Model;

/// The sums of one site's stamps in rising order, each with the element that it names.
#[derive(Drop)]
pub struct SiteTable {
    ids: Vec<(u32, Elem)>,
    reserved: usize,
}

impl Model for SiteTable {
    ghost use Rattle.std.specs.Prelude.{◌+◌, ◌≤◌, vec_len, vec_capacity};
    ghost use Rattle.opid.specs.Internal.RisingPairs.{AreRising};
    ghost use Rattle.rga_list.specs.Internal.SiteIds.{SiteIds};

    ghost Value = { SiteIds };

    ghost view = { λ t. record { ids = t.ids.items; reserved = t.reserved } };

    ghost invariant = { λ t. AreRising t.ids.items × (vec_len t.ids + t.reserved ≤ vec_capacity t.ids) };
}

impl SiteTable {
    /// No identifiers. Takes no memory.
    pub fn new(alloc: Global) -> Self
        ensures { result ≡ record { ids = []; reserved = 0 } }
    {
        SiteTable {
            ids: Vec::new(alloc),
            reserved: 0,
        }
    }

    /// The element that the sum names. Constant time where it is the greatest sum, as where one types; else steps
    /// logarithmic in the number of identifiers.
    pub fn find(&self, sum: u32) -> Option<Elem>
        ensures { result ≡ find_id sum self.now.ids }
    {
        let ids = self.ids.as_slice();
        if !ids.is_empty() {
            let (last, elem) = ids[ids.len() - 1];
            if last == sum {
                return Some(elem);
            }
        }
        match ids.binary_search_by_key(&sum, |id| id.0) {
            Ok(place) => Some(ids[place].1),
            Err(_) => None,
        }
    }

    /// The greatest sum. Constant time.
    pub fn last(&self) -> Option<u32>
        ensures some { IfSome result (λ sum. IsGreatest self.now.ids sum) }
        ensures none { IfNone result (self.now.ids ≡ []) }
    {
        let ids = self.ids.as_slice();
        if ids.is_empty() {
            return None;
        }
        Some(ids[ids.len() - 1].0)
    }

    /// Adds an identifier with a greater sum than all. Refused with `Memory` only where nothing is reserved.
    pub fn push(&mut self, sum: u32, elem: Elem) -> Result<(), Refusal>
        requires { AllByRecursion (λ id. id.0 < sum) self.old.ids }
        ensures ok { OnOk result (self.new ≡ record { ids = self.old.ids ++ (sum, elem) ∷ []; reserved = self.old.reserved - 1 }) }
        ensures err { OnErr result (self.new ≡ self.old) }
        ensures memory { IfErr result (λ e. (e ≡ Memory) × (self.old.reserved ≡ 0)) }
    {
        self.ids.push((sum, elem))?;
        self.reserved = self.reserved.saturating_sub(1);
        Ok(())
    }

    /// Reserves memory for `n` more identifiers. Refused with `Memory`.
    pub fn reserve(&mut self, n: usize) -> Result<(), Refusal>
        ensures ok { OnOk result (self.new ≡ record self.old { reserved = max self.old.reserved n }) }
        ensures err { OnErr result (self.new ≡ self.old) }
        ensures memory { IfErr result (λ e. e ≡ Memory) }
    {
        self.ids.reserve(n)?;
        self.reserved = self.reserved.max(n);
        Ok(())
    }
}
