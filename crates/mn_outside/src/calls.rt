//! The calls that a form in memory was asked for, and which of them are to fail.
ghost use Rattle.std.specs.Prelude.{◌≡◌, Vec, ℕ};
ghost use Rattle.mn_outside.specs.Memory.{is_next_failing, one_more};

#[derive(Drop)]
pub struct Calls {
    pub failing: Vec<u64>,
    pub made: u64,
}

impl Calls {
    /// Counts a call, and answers whether it is one of those that are to fail.
    pub fn next_fails(&mut self) -> bool
        ensures value { result ≡ is_next_failing self.old.failing.items self.old.made }
        ensures after { self.new ≡ record self.old { made = one_more self.old.made } }
    {
        self.made = self.made.saturating_add(1);
        self.failing.contains(&self.made)
    }
}
