//! Stamps, by which elements are told apart and ordered.
ghost use Rattle.std.specs.Prelude.{◌≡◌};
ghost use Rattle.opid.specs.Stamps.{is_before};

use crate::site::Site;

/// When and where an operation was made. `sum` is the sum of its clock's entries. Stamps are ordered by
/// sum, then by site. (Roh and others 2011, with the session left out.)
#[derive(Clone, Copy, Debug, PartialEq, Eq, PartialOrd, Ord)]
pub struct Stamp {
    pub sum: u32,
    pub site: Site,
}

impl Stamp {
    /// Whether this stamp stands before the other one: by sum, then by site. No memory, constant time.
    pub fn is_before(self, other: Stamp) -> bool
        ensures { result ≡ is_before self other }
    {
        self < other
    }
}
