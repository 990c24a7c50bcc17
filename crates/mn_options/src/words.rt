//! What each word is in its place.
ghost use Rattle.std.specs.Prelude.{◌≡◌, ◌++◌, length, map, IfOk, None, string_bytes};
ghost use Rattle.mn_options.specs.Words.{awaited_behind, begins_option, first_value, kind_table, listed_word, looked_up, option_table, order_table, value_of, word_at, word_of, words_of};

use crate::limits::{limit_in, number_in, size_in};
use crate::table::{CommandOption, KINDS, ORDERS, TABLE, value_count};
use mn_gen::GenKind;
use mn_order::Choice;
use std::alloc::{AllocError, Global};

/// A value that is awaited.
#[derive(Clone, Copy, Debug, PartialEq, Eq)]
pub enum Awaited {
    /// The limit of an option that takes one.
    LimitOf(CommandOption),
    /// An order of the search.
    AnOrder,
    /// The kind of a generated model.
    AKind,
    /// Its seed.
    ASeed,
    /// Its size.
    ASize,
}

/// What a word is in its place.
#[derive(Clone, Copy, Debug, PartialEq, Eq)]
pub enum Word {
    /// An option of the table.
    Listed(CommandOption),
    /// An option of the table that has too few words after it for its values.
    Bare(CommandOption),
    /// The value of an option that takes a limit, and no limit where the word writes none.
    Limit(CommandOption, Option<u64>),
    /// The value of the option that takes an order, and none where the word isn't known.
    Order(Option<Choice>),
    /// The kind of a generated model, and none where the word isn't known.
    Kind(Option<GenKind>),
    /// The seed of a generated model, and none where the word writes no number.
    Seed(Option<u64>),
    /// The size of a generated model, and none where the word writes no such size.
    Size(Option<u64>),
    /// A word in an option's place that the table doesn't have.
    Unlisted,
    /// The name of a model.
    Model,
}

fn looked_up<X: Copy>(mut table: &[(&str, X)], word: &str) -> Option<X>
    ensures { result ≡ looked_up (map (λ line. (line.0.now, line.1)) table.entry.now) word.now }
{
    while let [line, lines @ ..] = table {
        if line.0 == word {
            return Some(line.1);
        }
        table = lines;
    }
    None
}

fn listed_word(option: CommandOption, left: usize) -> Word
    ensures { result ≡ listed_word option left }
{
    if value_count(option) <= left {
        Word::Listed(option)
    } else {
        Word::Bare(option)
    }
}

fn word_of(word: &str, left: usize) -> Word
    ensures { result ≡ word_of word.now left }
{
    if !word.starts_with('-') {
        return Word::Model;
    }
    match looked_up(&TABLE, word) {
        Some(option) => listed_word(option, left),
        None => Word::Unlisted,
    }
}

fn value_of(value: Awaited, word: &str) -> Word
    ensures { result ≡ value_of value word.now }
{
    match value {
        Awaited::LimitOf(option) => Word::Limit(option, limit_in(word.as_bytes())),
        Awaited::AnOrder => Word::Order(looked_up(&ORDERS, word)),
        Awaited::AKind => Word::Kind(looked_up(&KINDS, word)),
        Awaited::ASeed => Word::Seed(number_in(word.as_bytes())),
        Awaited::ASize => Word::Size(size_in(word.as_bytes())),
    }
}

fn word_at(awaited: Option<Awaited>, word: &str, left: usize) -> Word
    ensures { result ≡ word_at awaited word.now left }
{
    match awaited {
        Some(value) => value_of(value, word),
        None => word_of(word, left),
    }
}

fn first_value(option: CommandOption) -> Option<Awaited>
    ensures { result ≡ first_value option }
{
    match option {
        CommandOption::Generate => Some(Awaited::AKind),
        CommandOption::NodeLimit | CommandOption::SolLimit => Some(Awaited::LimitOf(option)),
        CommandOption::VarOrder => Some(Awaited::AnOrder),
        CommandOption::FindAllSols
        | CommandOption::NoPrintSols
        | CommandOption::NoResume
        | CommandOption::Redump => None,
    }
}

fn awaited_behind(word: Word) -> Option<Awaited>
    ensures { result ≡ awaited_behind word }
{
    match word {
        Word::Listed(option) => first_value(option),
        Word::Kind(_) => Some(Awaited::ASeed),
        Word::Seed(_) => Some(Awaited::ASize),
        _ => None,
    }
}

pub fn words_of(alloc: Global, words: &[String]) -> Result<Vec<Word>, AllocError>
    ensures { IfOk result (λ found. found.items ≡ words_of (map string_bytes words.now)) }
{
    let mut found = Vec::new(alloc);
    let mut left = words;
    let mut awaited = None;
    while let [word, words @ ..] = left {
        let next = word_at(awaited, word.as_str(), words.len());
        found.push(next)?;
        awaited = awaited_behind(next);
        left = words;
    }
    Ok(found)
}
