//! What answers a choice, as a trait, and the four that do.
ghost use Rattle.std.specs.Prelude.{◌≡◌, ℕ, List, Option};
ghost use Rattle.mn_order.specs.Choose.{AreSizes, choose};
ghost use Rattle.mn_order.specs.declared.choice.Choice.TheVariants.{Fixed, Smallest, Largest, Ratio};

use crate::scan::{fixed, largest, ratio, smallest};

/// What names a place of two lists of sizes, if it names one.
pub trait Rule {
    /// The lists that it may be asked about.
    ghost takes: { Self → List ℕ → List ℕ → Type 0 };

    /// What it may answer.
    ghost gives: { Self → List ℕ → List ℕ → Option ℕ → Type 0 };

    /// The place.
    fn place(&self, now: &[u64], declared: &[u64]) -> Option<usize>
        requires { takes self.now now.now declared.now }
        ensures { gives self.now now.now declared.now result };
}

/// The rule that `fixed` computes.
#[derive(Clone, Copy, Debug, PartialEq, Eq)]
pub struct ByOrder;

/// The rule that `smallest` computes.
#[derive(Clone, Copy, Debug, PartialEq, Eq)]
pub struct BySmallest;

/// The rule that `largest` computes.
#[derive(Clone, Copy, Debug, PartialEq, Eq)]
pub struct ByLargest;

/// The rule that `ratio` computes.
#[derive(Clone, Copy, Debug, PartialEq, Eq)]
pub struct ByRatio;

impl Rule for ByOrder {
    ghost takes = { λ _ now declared. AreSizes now declared };

    ghost gives = { λ _ now declared place. place ≡ choose Fixed now declared };

    fn place(&self, now: &[u64], declared: &[u64]) -> Option<usize> {
        fixed(now, declared)
    }
}

impl Rule for BySmallest {
    ghost takes = { λ _ now declared. AreSizes now declared };

    ghost gives = { λ _ now declared place. place ≡ choose Smallest now declared };

    fn place(&self, now: &[u64], declared: &[u64]) -> Option<usize> {
        smallest(now, declared)
    }
}

impl Rule for ByLargest {
    ghost takes = { λ _ now declared. AreSizes now declared };

    ghost gives = { λ _ now declared place. place ≡ choose Largest now declared };

    fn place(&self, now: &[u64], declared: &[u64]) -> Option<usize> {
        largest(now, declared)
    }
}

impl Rule for ByRatio {
    ghost takes = { λ _ now declared. AreSizes now declared };

    ghost gives = { λ _ now declared place. place ≡ choose Ratio now declared };

    fn place(&self, now: &[u64], declared: &[u64]) -> Option<usize> {
        ratio(now, declared)
    }
}
