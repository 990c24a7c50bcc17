//! The law that the reader of a section of constraints is lawful. The function does nothing.
ghost use Rattle.mn_grammar.specs.Lawful.{Lawful};
ghost use Rattle.mn_model.specs.Problem.{Problem};
ghost use Rattle.mn_language.specs.Constraints.{constraints_spec};
ghost use Rattle.mn_language.specs.Constructing.{constraints_at};

/// A law: the reader of a section of constraints is lawful for the section's language. So it answers exactly what the
/// section's text stands for, and refuses all else at the right token and with the right kind.
pub fn constraints_law()
    ensures { (p : Problem) → Lawful (constraints_spec p) (constraints_at p) }
{}
