//! What the words of the command line ask for.
ghost use Rattle.std.specs.Prelude.{◌≡◌, ◌⊎◌, encode_utf8_all, map, option_map, IfErr, IfOk, IsSome, None, Some, string_bytes};
ghost use Rattle.mn_options.specs.Rules.{first_broken};
ghost use Rattle.mn_driver.specs.Made.{AreLimits};
ghost use Rattle.mn_driver.specs.Sources.{HasSize, origin_of, origin_told};
ghost use Rattle.mn_driver.specs.Words.{asked, asked_of, plan_of, solution_limit};

use crate::plan::Plan;
use mn_model::Goal;
use mn_options::{Options, Usage, Wanted, parse};
use mn_order::Choice;
use std::alloc::{AllocError, Global};

/// Where a model comes from.
#[derive(Drop)]
pub enum Source {
    /// From the file of that name.
    Named(String),
    /// It is generated.
    Made(Wanted),
}

/// What lawful words ask for.
#[derive(Drop)]
pub struct Request {
    /// Where the model comes from.
    pub model: Source,
    /// Whether its text is written in place of its solutions.
    pub redump: bool,
    /// Whether its solutions are printed.
    pub print_sols: bool,
    /// Whether all solutions are looked for.
    pub find_all: bool,
    /// How many solutions are looked for at most, if that is said.
    pub sol_limit: Option<u64>,
    /// How many visits are made at most, if that is said.
    pub node_limit: Option<u64>,
    /// How the variable of a branching is chosen.
    pub choice: Choice,
}

impl Request {
    /// How an instance is searched that has such an objective, or none.
    pub fn plan(&self, goal: Option<Goal>) -> Plan
        ensures { result ≡ plan_of (asked_of self.now) goal }
    {
        Plan {
            shown: self.print_sols,
            choice: self.choice,
            node_limit: self.node_limit,
            solution_limit: self.solution_limit(goal),
        }
    }

    /// How many solutions are looked for at most: one where the words don't say otherwise, and no best one is sought.
    fn solution_limit(&self, goal: Option<Goal>) -> Option<u64>
        ensures { result ≡ solution_limit self.now.sol_limit self.now.find_all goal }
    {
        match (self.sol_limit, self.find_all, goal) {
            (Some(limit), _, _) => Some(limit),
            (None, false, None) => Some(1),
            (None, _, _) => None,
        }
    }
}

fn string_of(alloc: Global, chars: &[char]) -> Result<String, AllocError>
    ensures { IfOk result (λ text. string_bytes text ≡ encode_utf8_all chars.now) }
{
    let mut text = String::new(alloc);
    for c in chars {
        text.push(*c)?;
    }
    Ok(text)
}

/// Where the model of these options comes from.
fn source_of(alloc: Global, options: &Options) -> Result<Source, AllocError>
    requires { (IsSome options.now.model × (options.now.generate ≡ None)) ⊎ ((options.now.model ≡ None) × IsSome options.now.generate) }
    ensures { IfOk result (λ source. origin_told (option_map encode_utf8_all options.now.model) options.now.generate ≡ Some (origin_of source)) }
{
    match &options.model {
        Some(name) => Ok(Source::Named(string_of(alloc, name.as_slice())?)),
        None => Ok(Source::Made(options.generate.unwrap())),
    }
}

/// What the words ask for, or the rule that they break first.
pub fn requested(alloc: Global, words: &Vec<String>) -> Result<Request, Usage>
    ensures asks { IfOk result (λ request. asked (map string_bytes words.now.items) ≡ Some (asked_of request)) }
    ensures size { IfOk result (λ request. HasSize (origin_of request.model)) }
    ensures limits { IfOk result (λ request. AreLimits request.sol_limit request.node_limit) }
    ensures broken { IfErr result (λ rule. (first_broken (map string_bytes words.now.items) ≡ Some rule) ⊎ (rule ≡ Usage.NoMemory)) }
{
    let options = parse(alloc, words)?;
    Ok(Request {
        model: source_of(alloc, &options)?,
        redump: options.redump,
        print_sols: options.print_sols,
        find_all: options.find_all,
        sol_limit: options.sol_limit,
        node_limit: options.node_limit,
        choice: options.choice,
    })
}
