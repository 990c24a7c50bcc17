//! The options and their words, and the words of the orders and of the kinds of generated models.
ghost use Rattle.std.specs.Prelude.{◌≡◌};
ghost use Rattle.mn_options.specs.Words.{same_option, value_count};

use mn_gen::GenKind;
use mn_order::Choice;

/// An option that stands in the table.
#[derive(Clone, Copy, Debug, PartialEq, Eq)]
pub enum CommandOption {
    /// All solutions are asked for, however many there are.
    FindAllSols,
    /// A model is generated in place of a file.
    Generate,
    /// The search ends after so many visits.
    NodeLimit,
    /// No solution is printed.
    NoPrintSols,
    /// No file is written at a limit.
    NoResume,
    /// The model's text is written, and the model isn't solved.
    Redump,
    /// The search ends at this solution.
    SolLimit,
    /// How the search chooses a variable.
    VarOrder,
}

/// The options, each after its word.
pub const TABLE: [(&str, CommandOption); 8] = [
    ("-findallsols", CommandOption::FindAllSols),
    ("-generate", CommandOption::Generate),
    ("-nodelimit", CommandOption::NodeLimit),
    ("-noprintsols", CommandOption::NoPrintSols),
    ("-noresume", CommandOption::NoResume),
    ("-redump", CommandOption::Redump),
    ("-sollimit", CommandOption::SolLimit),
    ("-varorder", CommandOption::VarOrder),
];

/// The ways to choose a variable, each after its word.
pub const ORDERS: [(&str, Choice); 4] = [
    ("static", Choice::Fixed),
    ("sdf", Choice::Smallest),
    ("ldf", Choice::Largest),
    ("srf", Choice::Ratio),
];

/// The kinds of generated models, each after its word.
pub const KINDS: [(&str, GenKind); 2] = [("queens", GenKind::Queens), ("tables", GenKind::Tables)];

/// How many words after the option are its values.
pub fn value_count(option: CommandOption) -> usize
    ensures { result ≡ value_count option }
{
    match option {
        CommandOption::Generate => 3,
        CommandOption::NodeLimit | CommandOption::SolLimit | CommandOption::VarOrder => 1,
        _ => 0,
    }
}

pub fn same_option(a: CommandOption, b: CommandOption) -> bool
    ensures { result ≡ same_option a b }
{
    a == b
}
