// Which calls fail.
ghost use Rattle.std.specs.Prelude.{◌≡◌, ◌↔◌, ◌+◌, ◌-◌, ◌<◌, ◌^◌, true, false};

// After so many calls so many fail, and then none.
#[derive(Clone, Copy)]
pub(crate) struct Failures {
    pub(crate) after: usize,
    pub(crate) left: usize,
    pub(crate) failed: usize,
    ghost counted: { failed + left < 2 ^ 64 },
}

impl Failures {
    // Whether the next call is one of them.
    pub(crate) fn next(&mut self) -> bool
        ensures yes { result ≡ true → self.new.failed ≡ self.old.failed + 1 }
        ensures no { result ≡ false → self.new.failed ≡ self.old.failed }
        ensures due { (result ≡ true) ↔ ((self.old.after ≡ 0) × (0 < self.old.left)) }
        ensures after { self.new.after ≡ self.old.after - 1 }
        ensures left { self.new.left + self.new.failed ≡ self.old.left + self.old.failed }
    {
        if self.after > 0 {
            self.after -= 1;
            return false;
        }
        if self.left == 0 {
            return false;
        }
        self.left -= 1;
        self.failed += 1;
        true
    }
}
