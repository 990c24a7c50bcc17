//! The two sorts of variables: those whose values go one by one, and those whose values go at the ends alone.
ghost use Rattle.std.specs.Prelude.{◌≡◌};
ghost use Rattle.mn_boxes.specs.Sets.{is_bounded};

use mn_model::Kind;

/// Whether a variable of this kind loses values at its ends alone.
pub fn is_bounded(kind: Kind) -> bool
    ensures { result ≡ is_bounded kind }
{
    match kind {
        Kind::Binary | Kind::Discrete => false,
        Kind::Bounded | Kind::Sparse => true,
    }
}
