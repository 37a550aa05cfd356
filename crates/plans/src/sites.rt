//! A number from 1 to 32, for the sites of a world.
use std::marker::Model;

/// How many sites a world begins with: 1 to 32.
#[derive(Clone, Copy, Debug, PartialEq, Eq)]
pub struct Sites {
    count: u8,
}

impl Model for Sites {
    ghost use Rattle.std.specs.Prelude.{ℕ, ◌≤◌};

    ghost Value = { ℕ };

    ghost view = { λ s. s.count };

    ghost invariant = { λ s. (1 ≤ s.count) × (s.count ≤ 32) };

    ghost inverse = { λ n. record { count = n } };
}

impl Sites {
    ghost use Rattle.std.specs.Prelude.{◌≡◌, ◌<◌, ◌≤◌, ◌⊎◌, IfSome, IfNone};

    /// So many sites, or none where they aren't 1 to 32. Constant time.
    pub fn new(count: u8) -> Option<Sites>
        ensures some { IfSome result (λ sites. sites ≡ count) }
        ensures none { IfNone result ((count < 1) ⊎ (32 < count)) }
    {
        if 1 <= count && count <= 32 {
            Some(Sites { count })
        } else {
            None
        }
    }

    /// How many. Constant time.
    pub fn count(self) -> u8
        ensures value { result ≡ self }
        ensures first { 1 ≤ result }
        ensures most { result ≤ 32 }
    {
        self.count
    }
}
