//! Laws of the definitions. The functions do nothing.
ghost use Rattle.mn_boxes.specs.Laws.{InsideIsTransitive, InsideHasNoMore, AsManyAreTheSame, DeclaredSetsAreABox, BoxesAreInsideTheDeclared, EventsAreChanges, OneOfTwoFires, BothFire, QuietBoxesAreTheSame, QuietEndsTell, QuietValuesTell};

/// A box inside a box inside a third one is inside it.
pub fn inside_passes_on()
    ensures { InsideIsTransitive }
{}

/// A box inside another one has no more values, and is it where it has as many.
pub fn as_many_are_the_same()
    ensures no_more { InsideHasNoMore }
    ensures same { AsManyAreTheSame }
{}

/// The declared sets are a box, and every box is inside it.
pub fn declared_sets_are_a_box()
    ensures declared { DeclaredSetsAreABox }
    ensures around { BoxesAreInsideTheDeclared }
{}

/// An event of a variable is fired only where its set changed.
pub fn events_are_changes()
    ensures { EventsAreChanges }
{}

/// What two changes together fire one of them fires. Where values only go, what one of them fires both together fire.
pub fn two_changes_fire_as_one()
    ensures one { OneOfTwoFires }
    ensures both { BothFire }
{}

/// Where no event is fired, nothing changed. Of a variable that loses values at its ends alone the two ends tell this, of
/// every other one the values that are gone.
pub fn quiet_events_tell()
    ensures any { QuietBoxesAreTheSame }
    ensures ends { QuietEndsTell }
    ensures values { QuietValuesTell }
{}
