//! How much is shown: what a node knows of its left side, and a root of its version.
ghost use Rattle.std.specs.Prelude.{◌≡◌, ◌+◌, ◌-◌, ◌^◌, ◌<◌, ◌≤◌, length, if◌then◌else◌, true, false};
ghost use Rattle.counted_tree.specs.Entry.{items_of};
ghost use Rattle.counted_tree.specs.Internal.Size.{size_of, through, beyond};

use crate::entry::Entry;

/// How many elements are shown, and how many units those have.
#[derive(Clone, Copy)]
pub struct Size {
    /// The elements.
    pub shown: u32,
    /// Their units in UTF-16: one or two for each.
    pub units: u32,
}

impl Size {
    /// That of no entry.
    pub(crate) fn none() -> Size
        ensures { result ≡ record { shown = 0; units = 0 } }
    {
        Size { shown: 0, units: 0 }
    }

    /// That of one entry.
    pub(crate) fn of(entry: &Entry) -> Size
        ensures { result ≡ size_of entry.now }
    {
        Size {
            shown: entry.items(false),
            units: entry.items(true),
        }
    }

    /// How many places are taken, in units or in elements.
    pub(crate) fn items(&self, in_units: bool) -> usize
        ensures { result ≡ (if in_units then self.now.units else self.now.shown) }
    {
        (if in_units { self.units } else { self.shown }) as usize
    }

    /// With what an entry shows, and with more.
    pub(crate) fn through(self, entry: &Entry, more: Size) -> Size
        requires shown { self.shown + length (items_of false entry.now) + more.shown < 2 ^ 32 }
        requires units { self.units + length (items_of true entry.now) + more.units < 2 ^ 32 }
        ensures { result ≡ through self entry.now more }
    {
        Size {
            shown: self.shown + entry.items(false) + more.shown,
            units: self.units + entry.items(true) + more.units,
        }
    }

    /// Without a part and what an entry shows.
    pub(crate) fn beyond(self, part: Size, entry: &Entry) -> Size
        requires shown { part.shown + length (items_of false entry.now) ≤ self.shown }
        requires units { part.units + length (items_of true entry.now) ≤ self.units }
        ensures { result ≡ beyond self part entry.now }
    {
        Size {
            shown: self.shown - part.shown - entry.items(false),
            units: self.units - part.units - entry.items(true),
        }
    }

    /// With more.
    pub(crate) fn plus(self, more: Size) -> Size
        requires shown { self.shown + more.shown < 2 ^ 32 }
        requires units { self.units + more.units < 2 ^ 32 }
        ensures { result ≡ record { shown = self.shown + more.shown; units = self.units + more.units } }
    {
        Size {
            shown: self.shown + more.shown,
            units: self.units + more.units,
        }
    }

    /// Without a part.
    pub(crate) fn minus(self, part: Size) -> Size
        requires shown { part.shown ≤ self.shown }
        requires units { part.units ≤ self.units }
        ensures { result ≡ record { shown = self.shown - part.shown; units = self.units - part.units } }
    {
        Size {
            shown: self.shown - part.shown,
            units: self.units - part.units,
        }
    }
}
