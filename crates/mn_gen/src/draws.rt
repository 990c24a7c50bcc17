//! Numbers that are drawn by a seed.
ghost use Rattle.std.specs.Prelude.{◌≡◌};
ghost use Rattle.mn_gen.specs.Generated.{drawn, next_state};

/// Draws numbers from 0 to 3, always the same after the same seed.
#[derive(Drop)]
pub struct Draws {
    pub state: u64,
}

impl Draws {
    /// The next number. Its state is the next one of a linear congruence, with the numbers of Knuth's MMIX.
    pub fn next(&mut self) -> i64
        ensures state { self.new.state ≡ next_state self.old.state }
        ensures drawn { result ≡ drawn self.new.state }
    {
        self.state = self
            .state
            .wrapping_mul(6_364_136_223_846_793_005)
            .wrapping_add(1_442_695_040_888_963_407);
        ((self.state >> 33) % 4) as i64
    }
}
