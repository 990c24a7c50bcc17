//! What the words ask for together, or the rule that they break first.
ghost use Rattle.std.specs.Prelude.{◌≡◌, ◌⊎◌, map, option_map, chars, encode_utf8_all, string_bytes, None, Some, IsOk, IsErrOf, IsSome, IfOk, IfErr, IfSome, IsNone};
ghost use Rattle.mn_gen.specs.Made.{IsSize};
ghost use Rattle.mn_options.specs.Limits.{IsLimit};
ghost use Rattle.mn_options.specs.Meant.{AreOptions, model_name};
ghost use Rattle.mn_options.specs.Rules.{first_broken};
ghost use Rattle.mn_options.specs.Words.{words_of};

use crate::rules::{asks_for, first_broken};
use crate::table::CommandOption;
use crate::told::{Wanted, choice_of, limit_of, named_by, wanted_of};
use crate::usage::Usage;
use crate::words::{Word, words_of};
use mn_model::Text;
use mn_order::Choice;
use std::alloc::{AllocError, Global};

/// What lawful words ask for.
#[derive(Debug, Drop)]
pub struct Options {
    /// The name of the model, if one is named.
    pub model: Option<Text>,
    /// The model that is to be generated, if one is: exactly where none is named.
    pub generate: Option<Wanted>,
    /// Whether all solutions are asked for, however many there are.
    pub find_all: bool,
    /// At which solution the search ends.
    pub sol_limit: Option<u64>,
    /// After how many visits the search ends.
    pub node_limit: Option<u64>,
    /// How the search chooses a variable.
    pub choice: Choice,
    /// Whether the solutions are printed.
    pub print_sols: bool,
    /// Whether the model's text is asked for in place of its solutions.
    pub redump: bool,
}

fn text_of(alloc: Global, word: &str) -> Result<Text, AllocError>
    ensures chars { IfOk result (λ text. text ≡ chars word.now) }
    ensures bytes { IfOk result (λ text. encode_utf8_all text ≡ word.now) }
{
    let mut text = Text::new(alloc);
    for c in word.chars() {
        text.push(c)?;
    }
    Ok(text)
}

fn model_text(alloc: Global, found: &[Word], words: &[String]) -> Result<Option<Text>, AllocError>
    requires { found.now ≡ words_of (map string_bytes words.now) }
    ensures chars { IfOk result (λ model. model ≡ option_map chars (model_name (map string_bytes words.now))) }
    ensures bytes { IfOk result (λ model. option_map encode_utf8_all model ≡ model_name (map string_bytes words.now)) }
{
    match named_by(found, words) {
        Some(name) => Ok(Some(text_of(alloc, name)?)),
        None => Ok(None),
    }
}

/// What the words ask for, or the rule that they break first. The words are those after the program's name.
pub fn parse(alloc: Global, words: &Vec<String>) -> Result<Options, Usage>
    ensures ok { IfOk result (λ options. AreOptions (map string_bytes words.now.items) options) }

    // A model is named or to be generated, and not both. The characters of a name are written by the bytes of its word.
    ensures named { IfOk result (λ options. (IsSome options.model × (options.generate ≡ None)) ⊎ ((options.model ≡ None) × IsSome options.generate)) }
    ensures size { IfOk result (λ options. IfSome options.generate (λ wanted. IsSize wanted.n)) }
    ensures name { IfOk result (λ options. option_map encode_utf8_all options.model ≡ model_name (map string_bytes words.now.items)) }

    // A limit is never 0, and has 18 digits at most.
    ensures sol_limit { IfOk result (λ options. IfSome options.sol_limit IsLimit) }
    ensures node_limit { IfOk result (λ options. IfSome options.node_limit IsLimit) }

    // What comes tells of the words.
    ensures kept { IsOk result → first_broken (map string_bytes words.now.items) ≡ None }
    ensures err { IfErr result (λ rule. (first_broken (map string_bytes words.now.items) ≡ Some rule) ⊎ (rule ≡ Usage.NoMemory)) }

    // And the words tell what comes.
    ensures lawful { first_broken (map string_bytes words.now.items) ≡ None → IsOk result ⊎ IsErrOf result Usage.NoMemory }
    ensures broken { IfSome (first_broken (map string_bytes words.now.items)) (λ rule. IsErrOf result rule ⊎ IsErrOf result Usage.NoMemory) }
{
    let found = words_of(alloc, words)?;
    if let Some(rule) = first_broken(&found) {
        return Err(rule);
    }
    Ok(Options {
        model: model_text(alloc, &found, words)?,
        generate: wanted_of(&found),
        find_all: asks_for(&found, CommandOption::FindAllSols),
        sol_limit: limit_of(CommandOption::SolLimit, &found),
        node_limit: limit_of(CommandOption::NodeLimit, &found),
        choice: choice_of(&found),
        print_sols: !asks_for(&found, CommandOption::NoPrintSols),
        redump: asks_for(&found, CommandOption::Redump),
    })
}
