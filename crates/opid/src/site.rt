//! The numbers of sites.
ghost use Rattle.std.specs.Prelude.{◌≡◌, ◌<◌, ◌↔◌, ℕ, IsErr, IfOk, IfErr};
ghost use Rattle.opid.specs.declared.refusal.Refusal.TheVariants.{BadSite};

use crate::refusal::Refusal;
use std::marker::Model;

/// How many sites there are. Each has a number below it.
pub const SITES: usize = 32;

/// The number of a site, 0 to 31: whoever makes operations has one of its own.
#[derive(Clone, Copy, Debug, PartialEq, Eq, PartialOrd, Ord)]
pub struct Site {
    number: u8,
}

impl Model for Site {
    ghost use Rattle.std.specs.Prelude.{ℕ, ◌<◌};

    ghost Value = { ℕ };

    ghost view = { λ s. s.number };

    ghost invariant = { λ s. s.number < 32 };

    ghost inverse = { λ n. record { number = n } };
}

impl Site {
    /// The site of this number. Refused with `BadSite` above 31. Constant time.
    pub fn new(number: u8) -> Result<Site, Refusal>
        ensures value { IfOk result (λ s. s ≡ number) }
        ensures refused { IsErr result ↔ (31 < number) }
        ensures cause { IfErr result (λ e. e ≡ BadSite) }
    {
        if number < 32 {
            Ok(Site { number })
        } else {
            Err(Refusal::BadSite)
        }
    }

    /// The site's number. Constant time.
    pub fn number(self) -> u8
        ensures value { result ≡ self }
        ensures range { result < 32 }
    {
        self.number
    }
}
