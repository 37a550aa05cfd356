//! Random numbers, the same for the same seed: a linear congruential generator, of which the high bits are taken.

/// A generator.
#[derive(Clone, Copy, Drop)]
pub(crate) struct Dice {
    state: u64,
}

impl Dice {
    /// The generator of a seed.
    pub(crate) fn new(seed: u64) -> Dice {
        Dice {
            state: seed
                .wrapping_mul(0x9e37_79b9_7f4a_7c15)
                .wrapping_add(0x2545_f491_4f6c_dd1d),
        }
    }

    /// A number below `n`, or 0 where that is 0.
    pub(crate) fn below(&mut self, n: u32) -> u32 {
        self.state = self
            .state
            .wrapping_mul(6_364_136_223_846_793_005)
            .wrapping_add(1_442_695_040_888_963_407);
        let high = self.state >> 33;
        u32::try_from(high % u64::from(n.max(1))).unwrap_or(0)
    }

    /// A number from the first to the last.
    pub(crate) fn among(&mut self, first: u32, last: u32) -> u32 {
        let range = last.saturating_sub(first).saturating_add(1);
        first.saturating_add(self.below(range))
    }

    /// Whether one of `n` came up.
    pub(crate) fn once_in(&mut self, n: u32) -> bool {
        self.below(n) == 0
    }
}
