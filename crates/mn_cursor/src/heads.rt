//! The heads of sections.
ghost use Rattle.std.specs.Prelude.{◌≡◌};
ghost use Rattle.mn_lexer.specs.Terminals.{head};
ghost use Rattle.mn_cursor.specs.Heads.{head_of};

/// The heads of sections, and the head that ends a text.
#[derive(Clone, Copy, Debug, PartialEq, Eq)]
pub enum Head {
    Variables,
    TupleList,
    Search,
    Constraints,
    /// `**EOF**`.
    End,
}

/// The head of these bytes. None comes exactly where the grammar has none.
pub fn head_of(bytes: &[u8]) -> Option<Head>
    ensures { result ≡ head_of (head bytes.now) }
{
    if bytes == b"**VARIABLES**".as_slice() {
        Some(Head::Variables)
    } else if bytes == b"**TUPLELIST**".as_slice() {
        Some(Head::TupleList)
    } else if bytes == b"**SEARCH**".as_slice() {
        Some(Head::Search)
    } else if bytes == b"**CONSTRAINTS**".as_slice() {
        Some(Head::Constraints)
    } else if bytes == b"**EOF**".as_slice() {
        Some(Head::End)
    } else {
        None
    }
}
