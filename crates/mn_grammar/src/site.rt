//! What is wanted at a place, and the kind of a refusal of what stands there instead.
ghost use Rattle.std.specs.Prelude.{◌≡◌, List, ◌∷◌};
ghost use Rattle.mn_lexer.specs.Terminals.{Terminal, head, terminal};
ghost use Rattle.mn_grammar.specs.Reading.{kind_at};
ghost use Rattle.mn_grammar.specs.Tokens.{is_known_head, is_name};

use crate::Kind;
use mn_lexer::TokenKind;

/// What is wanted at a place, as far as the kind of a refusal hangs on it.
#[derive(Clone, Copy, Debug, PartialEq, Eq)]
pub enum Site {
    /// Marks alone.
    MarksOnly,
    /// A name or any number, and no head.
    Free,
    /// Certain words, heads or numbers.
    Fixed,
    /// A name or any number, and heads too.
    Mixed,
}

/// Whether a word is a name: it has no `-`, and isn't `_` alone.
pub fn is_name(word: &[u8]) -> bool
    ensures { result ≡ is_name word.now }
{
    !(word.contains(&b'-') || word == b"_".as_slice())
}

/// Whether the grammar has the head of these bytes.
pub fn is_known_head(bytes: &[u8]) -> bool
    ensures { result ≡ is_known_head (head bytes.now) }
{
    bytes == b"**VARIABLES**".as_slice()
        || bytes == b"**TUPLELIST**".as_slice()
        || bytes == b"**SEARCH**".as_slice()
        || bytes == b"**CONSTRAINTS**".as_slice()
        || bytes == b"**EOF**".as_slice()
}

/// The kind of a refusal at a token that isn't wanted, by what is wanted there.
pub fn kind_at(site: Site, token: TokenKind, bytes: &[u8]) -> Kind
    ensures { (more : List Terminal) → result ≡ kind_at site (terminal token bytes.now ∷ more) }
{
    match site {
        Site::Fixed if token != TokenKind::Mark => Kind::Unsupported,
        Site::Mixed if token == TokenKind::Head && !is_known_head(bytes) => Kind::Unsupported,
        _ => Kind::Syntax,
    }
}
