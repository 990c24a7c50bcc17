//! The marks of the language, and which of them a token is.
ghost use Rattle.std.specs.Prelude.{◌≡◌};
ghost use Rattle.mn_lexer.specs.Forms.{IsMark};
ghost use Rattle.mn_lexer.specs.Marks.{mark_of};

/// The marks of the language.
#[derive(Clone, Copy, Debug, PartialEq, Eq)]
pub enum Mark {
    OpenSquare,
    CloseSquare,
    OpenCurly,
    CloseCurly,
    OpenRound,
    CloseRound,
    Less,
    Greater,
    Comma,
    Equals,
    Bang,
    Dots,
}

/// The mark that a token of kind `Mark` is, by its bytes.
pub fn mark_of(bytes: &[u8]) -> Mark
    requires { IsMark bytes.now }
    ensures { result ≡ mark_of bytes.now }
{
    match bytes {
        b"[" => Mark::OpenSquare,
        b"]" => Mark::CloseSquare,
        b"{" => Mark::OpenCurly,
        b"}" => Mark::CloseCurly,
        b"(" => Mark::OpenRound,
        b")" => Mark::CloseRound,
        b"<" => Mark::Less,
        b">" => Mark::Greater,
        b"," => Mark::Comma,
        b"=" => Mark::Equals,
        b"!" => Mark::Bang,
        _ => Mark::Dots,
    }
}
