//! What single words tell: limits, the order, and the model's name.
ghost use Rattle.std.specs.Prelude.{◌≡◌, length, map, option_map, string_bytes};
ghost use Rattle.mn_options.specs.Meant.{choice_of, first_told, kind_at, limit_at, limit_of, named_by, order_at, seed_at, size_at, wanted, wanted_of};

use crate::rules::is_model;
use crate::table::{CommandOption, same_option};
use crate::words::Word;
use mn_gen::GenKind;
use mn_order::Choice;

/// A model that is to be generated.
#[derive(Clone, Copy, Debug, PartialEq, Eq)]
pub struct Wanted {
    pub kind: GenKind,
    pub seed: u64,
    pub n: u64,
}

fn limit_at(option: CommandOption, word: Word) -> Option<u64>
    ensures { result ≡ limit_at option word }
{
    match word {
        Word::Limit(other, limit) if same_option(option, other) => limit,
        _ => None,
    }
}

pub fn limit_of(option: CommandOption, words: &[Word]) -> Option<u64>
    ensures { result ≡ limit_of option words.now }
{
    for word in words {
        let limit = limit_at(option, *word);
        if limit.is_some() {
            return limit;
        }
    }
    None
}

fn order_at(word: Word) -> Option<Choice>
    ensures { result ≡ order_at word }
{
    match word {
        Word::Order(order) => order,
        _ => None,
    }
}

pub fn choice_of(words: &[Word]) -> Choice
    ensures { result ≡ choice_of words.now }
{
    for word in words {
        if let Some(choice) = order_at(*word) {
            return choice;
        }
    }
    Choice::Fixed
}

fn kind_in(words: &[Word]) -> Option<GenKind>
    ensures { result ≡ first_told kind_at words.now }
{
    for word in words {
        if let Word::Kind(Some(kind)) = *word {
            return Some(kind);
        }
    }
    None
}

fn seed_in(words: &[Word]) -> Option<u64>
    ensures { result ≡ first_told seed_at words.now }
{
    for word in words {
        if let Word::Seed(Some(seed)) = *word {
            return Some(seed);
        }
    }
    None
}

fn size_in(words: &[Word]) -> Option<u64>
    ensures { result ≡ first_told size_at words.now }
{
    for word in words {
        if let Word::Size(Some(size)) = *word {
            return Some(size);
        }
    }
    None
}

pub fn wanted_of(words: &[Word]) -> Option<Wanted>
    ensures { result ≡ wanted_of words.now }
{
    match (kind_in(words), seed_in(words), size_in(words)) {
        (Some(kind), Some(seed), Some(n)) => Some(Wanted { kind, seed, n }),
        _ => None,
    }
}

pub fn named_by<'a>(words: &[Word], texts: &'a [String]) -> Option<&'a str>
    requires { length words.now ≡ length texts.now }
    ensures { option_map (λ name. name.now) result ≡ named_by words.now (map string_bytes texts.now) }
{
    for i in 0..words.len() {
        if is_model(words[i]) {
            return Some(texts[i].as_str());
        }
    }
    None
}
