//! Numbers that look random, always the same.
ghost use Rattle.std.specs.Prelude.{◌<◌};

/// A row of such numbers.
#[derive(Drop)]
pub struct Dice(u64);

impl Dice {
    /// The row from a seed on.
    pub fn new(seed: u64) -> Dice {
        Dice(seed)
    }

    /// The next number of the row, below this.
    pub fn roll(&mut self, sides: usize) -> usize
        requires { 0 < sides }
        ensures { result < sides }
    {
        self.0 = self
            .0
            .wrapping_mul(6_364_136_223_846_793_005)
            .wrapping_add(1_442_695_040_888_963_407);
        ((self.0 >> 33) as usize) % sides
    }
}
