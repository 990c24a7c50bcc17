//! Exact tests of support.
ghost use Rattle.std.specs.Prelude.{◌≡◌, ◌↔◌, ◌<◌, [], IsTrue, length};
ghost use Rattle.mn_model.specs.Lawful.{IsMeant};
ghost use Rattle.mn_model.specs.Parts.{places};
ghost use Rattle.mn_meaning.specs.Meaning.{Meets};
ghost use Rattle.mn_closure.specs.Levels.{Hull, level};
ghost use Rattle.mn_closure.specs.Supports.{Supported};
ghost use Rattle.mn_prop.specs.Contexts.{box_of, vars_of};
ghost use Rattle.mn_prop.specs.Posts.{HasAt, IsReadyToRun};

use crate::context::Ctx;
use crate::runner::Scoped;

/// A constraint of which it can be told exactly which values are supported.
pub trait SupportTest: Scoped {
    /// Whether a value of a place is supported.
    fn supported(&self, c: &Ctx, i: usize, a: i64) -> bool
        requires ready { IsReadyToRun (vars_of c.now) (Self.posted self.now) }
        requires place { i < length (places (Self.posted self.now).con) }
        requires there { HasAt (Self.posted self.now).con i a (box_of c.now) }
        ensures { IsTrue result ↔ Supported (Self.posted self.now).lists (Self.posted self.now).con i a (box_of c.now) };

    /// Whether the constraint holds if it has no places.
    fn bare(&self) -> bool
        requires { IsMeant (Self.posted self.now).lists (Self.posted self.now).con }
        ensures { IsTrue result ↔ (places (Self.posted self.now).con ≡ [] → Meets (Self.posted self.now).lists (Self.posted self.now).con []) };

    /// Whether the ends of a place alone have to be supported, whatever it names.
    fn by_ends(&self) -> bool
        ensures { IsTrue result ↔ (level (Self.posted self.now).con ≡ Hull) };
}
