//! Laws of whole texts: what each stands for is unique, and each has one verdict. The functions do nothing.
ghost use Rattle.std.specs.Prelude.{◌≡◌, List, ℕ, Result};
ghost use Rattle.mn_model.specs.Lawful.{IsLawful};
ghost use Rattle.mn_model.specs.Problem.{Problem};
ghost use Rattle.mn_model.specs.declared.refusal.Refusal.{Refusal};
ghost use Rattle.mn_language.specs.Texts.{Reads, IsVerdict};

/// A law: no text stands for two instances.
pub fn one_instance()
    ensures { (text : List ℕ) (p q : Problem) → Reads text p → Reads text q → p ≡ q }
{}

/// A law: each text has a verdict, and only one: the instance that it stands for, or the refusal of it.
pub fn one_verdict()
    ensures some { (text : List ℕ) → (r : Result Problem Refusal) × IsVerdict text r }
    ensures one { (text : List ℕ) (r q : Result Problem Refusal) → IsVerdict text r → IsVerdict text q → r ≡ q }
{}

/// A law: whatever a text stands for is a lawful instance. So the language has no text that declares a name twice, names a
/// variable that isn't there, or passes a limit.
pub fn texts_are_lawful()
    ensures { (text : List ℕ) (p : Problem) → Reads text p → IsLawful p }
{}
