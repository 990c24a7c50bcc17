//! The law that the canonical text of an instance is read as that instance. The function does nothing.
ghost use Rattle.mn_canonical.specs.Law.{CanonicalTextsAreRead};

use mn_pieces::{numbers_are_read, spaced_pieces_are_tokens};
use mn_sections::instances_are_said;

/// The canonical text of a lawful instance stands for that instance, where it is no longer than a text may be.
pub fn canonical_texts_are_read()
    ensures { CanonicalTextsAreRead }
{
    instances_are_said();
    spaced_pieces_are_tokens();
    numbers_are_read();
}
