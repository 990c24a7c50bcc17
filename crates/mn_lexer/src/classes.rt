//! The classes of bytes, by what they begin. `Letter` has `_` too, and `Mark` the marks of one byte.
ghost use Rattle.std.specs.Prelude.{◌≡◌, IsTrue};
ghost use Rattle.mn_lexer.specs.Bytes.{is_word_byte};
ghost use Rattle.mn_lexer.specs.FirstBytes.{is_of_class};

use Class::{Blank, Digit, Dot, Hash, Letter, Mark, Minus, Other, Star};

#[derive(Clone, Copy)]
pub enum Class {
    Blank,
    Hash,
    Letter,
    Digit,
    Minus,
    Star,
    Mark,
    Dot,
    Other,
}

static CLASSES: [Class; 256] = [
    Other, Other, Other, Other, Other, Other, Other, Other, Other, Blank, Blank, Other, Other,
    Blank, Other, Other, Other, Other, Other, Other, Other, Other, Other, Other, Other, Other,
    Other, Other, Other, Other, Other, Other, Blank, Mark, Other, Hash, Other, Other, Other, Other,
    Mark, Mark, Star, Other, Mark, Minus, Dot, Other, Digit, Digit, Digit, Digit, Digit, Digit,
    Digit, Digit, Digit, Digit, Other, Other, Mark, Mark, Mark, Other, Other, Letter, Letter,
    Letter, Letter, Letter, Letter, Letter, Letter, Letter, Letter, Letter, Letter, Letter, Letter,
    Letter, Letter, Letter, Letter, Letter, Letter, Letter, Letter, Letter, Letter, Letter, Letter,
    Mark, Other, Mark, Other, Letter, Other, Letter, Letter, Letter, Letter, Letter, Letter,
    Letter, Letter, Letter, Letter, Letter, Letter, Letter, Letter, Letter, Letter, Letter, Letter,
    Letter, Letter, Letter, Letter, Letter, Letter, Letter, Letter, Mark, Other, Mark, Other,
    Other, Other, Other, Other, Other, Other, Other, Other, Other, Other, Other, Other, Other,
    Other, Other, Other, Other, Other, Other, Other, Other, Other, Other, Other, Other, Other,
    Other, Other, Other, Other, Other, Other, Other, Other, Other, Other, Other, Other, Other,
    Other, Other, Other, Other, Other, Other, Other, Other, Other, Other, Other, Other, Other,
    Other, Other, Other, Other, Other, Other, Other, Other, Other, Other, Other, Other, Other,
    Other, Other, Other, Other, Other, Other, Other, Other, Other, Other, Other, Other, Other,
    Other, Other, Other, Other, Other, Other, Other, Other, Other, Other, Other, Other, Other,
    Other, Other, Other, Other, Other, Other, Other, Other, Other, Other, Other, Other, Other,
    Other, Other, Other, Other, Other, Other, Other, Other, Other, Other, Other, Other, Other,
    Other, Other, Other, Other, Other, Other, Other, Other, Other, Other, Other, Other,
];

// One look into the table is faster than a chain of tests.
pub fn class_of(byte: u8) -> Class
    ensures { IsTrue (is_of_class result byte) }
{
    CLASSES[byte as usize]
}

pub fn is_word_byte(byte: u8) -> bool
    ensures { result ≡ is_word_byte byte }
{
    matches!(class_of(byte), Letter | Digit | Minus)
}
