//! Laws of texts that are written piece by piece. The functions do nothing.
ghost use Rattle.mn_pieces.specs.Pieces.{PiecesAreTokens, SpacedPiecesAreTokens};
ghost use Rattle.mn_pieces.specs.Printed.{NumbersAreRead};

/// The pieces of a text that keep apart are its tokens.
pub fn pieces_are_tokens()
    ensures { PiecesAreTokens }
{}

/// Pieces keep apart where a blank, a head or a mark stands between any two words or numbers.
pub fn spaced_pieces_are_tokens()
    ensures { SpacedPiecesAreTokens }
{}

/// A number is read again as it was printed.
pub fn numbers_are_read()
    ensures { NumbersAreRead }
{}
