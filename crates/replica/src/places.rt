//! Where a log has the operations of each site.
ghost use Rattle.std.specs.Prelude.{◌≡◌, ◌<◌, ◌≤◌, ◌-◌, ℕ, map, ◌++◌, [], ◌∷◌, max, replicate, slice_get, slice_set, OnOk, OnErr, IfErr};
ghost use Rattle.std.specs.List.{AllByRecursion};
ghost use Rattle.opid.specs.declared.refusal.Refusal.TheVariants.{Memory};
ghost use Rattle.replica.specs.Internal.Numbered.{places_at};

use opid::{Refusal, SITES, Site};
use std::alloc::Global;
use std::array;
use std::marker::Model;

// Memory is taken for at least so many places at a time.
const AT_ONCE: usize = 64;

// The places of one site's operations, in rising order.
#[derive(Drop)]
struct SitePlaces {
    places: Vec<u32>,
    reserved: usize,
}

impl Model for SitePlaces {
    ghost use Rattle.std.specs.Prelude.{◌+◌, ◌≤◌, vec_len, vec_capacity};
    ghost use Rattle.replica.specs.Internal.Numbered.{PlacesOfOne};

    ghost Value = { PlacesOfOne };

    ghost view = { λ r. record { places = r.places.items; reserved = r.reserved } };

    ghost invariant = { λ r. vec_len r.places + r.reserved ≤ vec_capacity r.places };
}

impl SitePlaces {
    fn new(alloc: Global) -> SitePlaces
        ensures { result ≡ record { places = []; reserved = 0 } }
    {
        SitePlaces {
            places: Vec::new(alloc),
            reserved: 0,
        }
    }

    fn get(&self, index: u32) -> Option<u32>
        ensures { result ≡ slice_get self.now.places index }
    {
        self.places.get(index as usize).copied()
    }

    // Adds a place, for which memory is reserved.
    fn push(&mut self, place: u32)
        requires { 0 < self.old.reserved }
        ensures { self.new ≡ record { places = self.old.places ++ place ∷ []; reserved = self.old.reserved - 1 } }
    {
        self.places.push_reserved(place);
        self.reserved -= 1;
    }

    fn reserve(&mut self, n: usize) -> Result<(), Refusal>
        ensures ok { OnOk result (self.new ≡ record self.old { reserved = max self.old.reserved n }) }
        ensures err { OnErr result (self.new ≡ self.old) }
        ensures memory { IfErr result (λ e. e ≡ Memory) }
    {
        self.places.reserve(n)?;
        self.reserved = self.reserved.max(n);
        Ok(())
    }
}

/// For each site the places of its operations in a log, in rising order: the first operation of a site has the number 1,
/// the next 2, and so on, so that an operation is found by its number in one step.
#[derive(Drop)]
pub(crate) struct Places {
    rows: [SitePlaces; SITES],
    reserved: usize,
    // For so many places of any site there is memory, of which `reserved` are promised.
    ahead: usize,
}

impl Model for Places {
    ghost use Rattle.std.specs.Prelude.{◌≤◌, map};
    ghost use Rattle.std.specs.List.{AllByRecursion};
    ghost use Rattle.replica.specs.Internal.Numbered.{AllPlaces};

    ghost Value = { AllPlaces };

    ghost view = { λ p. record { rows = map (λ r. r.places) p.rows; reserved = p.reserved } };

    ghost invariant = { λ p. AllByRecursion (λ r. p.ahead ≤ r.reserved) p.rows × (p.reserved ≤ p.ahead) };
}

impl Places {
    /// No places. Takes no memory.
    pub(crate) fn new(alloc: Global) -> Places
        ensures { result ≡ record { rows = replicate 32 []; reserved = 0 } }
    {
        Places {
            rows: array::from_fn(|_| SitePlaces::new(alloc)),
            reserved: 0,
            ahead: 0,
        }
    }

    /// The place of the site's operation with this index, counted from 0. Constant time.
    pub(crate) fn get(&self, site: Site, index: u32) -> Option<u32>
        ensures value { result ≡ slice_get (places_at self.now.rows site) index }
        ensures sited { site < 32 }
    {
        self.rows[usize::from(site.number())].get(index)
    }

    /// Adds the place of the site's next operation, for which memory is reserved.
    pub(crate) fn push(&mut self, site: Site, place: u32)
        requires { 0 < self.old.reserved }
        ensures rows { self.new.rows ≡ slice_set self.old.rows site (places_at self.old.rows site ++ place ∷ []) }
        ensures reserved { self.new.reserved ≡ self.old.reserved - 1 }
    {
        self.rows[usize::from(site.number())].push(place);
        self.reserved -= 1;
        self.ahead -= 1;
    }

    /// Reserves memory for `n` more places of any site. Constant time. Where it is there already none is taken; else it is taken
    /// for at least 64 places of each site at a time, of 4 bytes. Refused with `Memory`, only where fewer are reserved.
    pub(crate) fn reserve(&mut self, n: usize) -> Result<(), Refusal>
        ensures ok { OnOk result (self.new ≡ record self.old { reserved = max self.old.reserved n }) }
        ensures err { OnErr result (self.new ≡ self.old) }
        ensures memory { IfErr result (λ e. (e ≡ Memory) × (self.old.reserved < n)) }
    {
        if n <= self.ahead {
            self.reserved = self.reserved.max(n);
            return Ok(());
        }
        let more = n.max(AT_ONCE);
        reserve_each(&mut self.rows, more)?;
        self.ahead = more;
        self.reserved = n;
        Ok(())
    }
}

// Reserves memory for `n` more places in each row.
fn reserve_each(rows: &mut [SitePlaces], n: usize) -> Result<(), Refusal>
    ensures same { map (λ r. r.places) rows.new ≡ map (λ r. r.places) rows.old }
    ensures kept { (k : ℕ) → AllByRecursion (λ r. k ≤ r.reserved) rows.old → AllByRecursion (λ r. k ≤ r.reserved) rows.new }
    ensures ok { OnOk result (AllByRecursion (λ r. n ≤ r.reserved) rows.new) }
    ensures memory { IfErr result (λ e. e ≡ Memory) }
{
    for row in rows.iter_mut() {
        row.reserve(n)?;
    }
    Ok(())
}
