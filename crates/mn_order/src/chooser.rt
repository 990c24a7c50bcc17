//! A choice with a rule that answers it.
ghost use Rattle.std.specs.Prelude.{◌≡◌, ◌↔◌, IsFalse, IsNone, IsTrue};
ghost use Rattle.std.specs.List.{AllByRecursion};
ghost use Rattle.mn_order.specs.Choose.{AreSizes, choose};
ghost use Rattle.mn_order.specs.Keeps.{AnswersChoice, TakesSizes};
ghost use Rattle.mn_order.specs.declared.choice.Choice.TheVariants.{Fixed};

use crate::choice::Choice;
use crate::rule::Rule;
use std::marker::Model;

/// A choice, and a rule that answers it. Contracts see it as the choice.
#[derive(Drop)]
pub struct Chooser<R: Rule> {
    choice: Choice,
    rule: R,
}

impl<R: Rule> Model for Chooser<R> {
    ghost use Rattle.mn_order.specs.declared.choice.Choice.{Choice};

    ghost Value = { Choice };

    ghost use Rattle.mn_order.specs.Keeps.{AnswersChoice, TakesSizes};

    ghost view = { λ c. c.choice };

    ghost invariant = { λ c. TakesSizes (R.takes c.rule) × AnswersChoice c.choice (R.gives c.rule) };
}

impl<R: Rule> Chooser<R> {
    /// The choice, with a rule that answers it at all lists of sizes.
    pub fn new(choice: Choice, rule: R) -> Chooser<R>
        requires takes { TakesSizes (R.takes rule) }
        requires answers { AnswersChoice choice (R.gives rule) }
        ensures { result ≡ choice }
    {
        Chooser { choice, rule }
    }

    /// Whether the order of variables decides alone.
    pub fn is_fixed(&self) -> bool
        ensures yes { IsTrue result → self.now ≡ Fixed }
        ensures no { IsFalse result → self.now ≡ Fixed → ⊥ }
    {
        match self.choice {
            Choice::Fixed => true,
            Choice::Smallest | Choice::Largest | Choice::Ratio => false,
        }
    }

    /// The place that the choice names.
    pub fn pick(&self, now: &[u64], declared: &[u64]) -> Option<usize>
        requires { AreSizes now.now declared.now }
        ensures place { result ≡ choose self.now now.now declared.now }
        ensures none { IsNone result ↔ AllByRecursion (λ size. size ≡ 1) now.now }
    {
        self.rule.place(now, declared)
    }
}
