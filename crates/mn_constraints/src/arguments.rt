//! The arguments of a form: terms, vectors, numbers, lists of numbers, and tables.
ghost use Rattle.std.specs.Prelude.{◌≡◌, ◌∷◌, [], false, List, IfOk};
ghost use Rattle.mn_cursor.specs.Progress.{rest, Moves};
ghost use Rattle.mn_grammar.specs.Gives.{Gives};
ghost use Rattle.mn_grammar.specs.Reading.{number_at, ret, then_read};
ghost use Rattle.mn_language.specs.Arguments.{behind_value, length_wanted, numbers_wanted, of_numbers, of_tuples, placed_value, vector_wanted, Value as Meant};
ghost use Rattle.mn_language.specs.Constructing.{argument_at, no_break, numbers_at, one_number, range_at, table_at};
ghost use Rattle.mn_language.specs.Values.{value_seen};
ghost use Rattle.mn_references.specs.Entries.{a_term};
ghost use Rattle.mn_references.specs.Listing.{listed_seen};
ghost use Rattle.mn_references.specs.Referring.{entry_at, vector_at};
ghost use Rattle.mn_constraints.specs.Filling.{argued_seen, argument_then_at};
ghost use Rattle.mn_constraints.specs.Numbering.{wanted_seen};

use crate::numbers::{Wanted, number, numbers, range};
use crate::tables::table;
use mn_grammar::{Kind, Stop};
use mn_language::{Argument, Numbers, Places, Value};
use mn_lexer::Mark;
use mn_model::{Ints, NoMemory, PLACES};
use mn_references::{Bounds, Listed, Scan, Unfit, kind_of, term, vector};
use std::alloc::Global;

/// What an argument stands for, and what the token after it breaks.
#[derive(Debug, Drop)]
pub struct Argued {
    pub value: Value,
    pub behind: Option<Unfit>,
}

impl Argued {
    /// What the mark after it breaks.
    fn kind(&self) -> Option<Kind>
        ensures { result ≡ behind_value (argued_seen self.now) }
    {
        match self.value {
            Value::Terms(_) => kind_of(self.behind),
            _ => None,
        }
    }
}

/// What terms stand for.
fn placed(listed: Listed) -> Argued
    ensures { argued_seen result ≡ placed_value (listed_seen listed.entry) }
{
    Argued {
        value: Value::Terms(listed.terms),
        behind: listed.behind,
    }
}

/// What is wanted of a vector, where the first argument has this length.
fn bounds_of(places: Places, length: u32) -> Bounds
    ensures { (vs : List Meant) → length_wanted vs ≡ length → result ≡ vector_wanted places vs }
{
    let (least, most, bits) = match places {
        Places::Any => (0, PLACES, false),
        Places::Some => (1, PLACES, false),
        Places::Bits => (0, PLACES, true),
        Places::Alike => (length, length, false),
    };
    Bounds { least, most, bits }
}

/// What is wanted of a list of numbers, where the first argument has this length.
fn wanted_of(numbers: Numbers, length: u32) -> Wanted
    ensures { (vs : List Meant) → length_wanted vs ≡ length → wanted_seen result ≡ numbers_wanted numbers vs }
{
    let (count, limited, paired) = match numbers {
        Numbers::Any => (None, false, false),
        Numbers::Pairs => (None, false, true),
        Numbers::Weights => (None, true, false),
        Numbers::Alike => (Some(length), true, false),
    };
    Wanted {
        count,
        limited,
        paired,
    }
}

#[tactic(auto, using(mn_cursor::proofs::Turning::stops_first, mn_cursor::proofs::Turning::stops_second))]
fn one_term(scan: &mut Scan) -> Result<Argued, Stop>
    ensures moves { Moves scan.old scan.new }
    ensures gives { Gives (λ a. (argued_seen a, rest scan.new)) result (then_read (entry_at scan.old.problem (a_term scan.old.problem false)) (λ v. ret (placed_value v)) (rest scan.old)) }
{
    Ok(placed(term(scan, false)?))
}

#[tactic(auto, using(mn_cursor::proofs::Turning::stops_first, mn_cursor::proofs::Turning::stops_second))]
fn one_vector(scan: &mut Scan, bounds: Bounds) -> Result<Argued, Stop>
    ensures moves { Moves scan.old scan.new }
    ensures gives { Gives (λ a. (argued_seen a, rest scan.new)) result (then_read (vector_at scan.old.problem bounds) (λ v. ret (placed_value v)) (rest scan.old)) }
{
    Ok(placed(vector(scan, bounds)?))
}

/// What numbers stand for.
fn listed(numbers: Ints) -> Argued
    ensures { argued_seen result ≡ of_numbers numbers }
{
    Argued {
        value: Value::Numbers(numbers),
        behind: None,
    }
}

/// A list of one number.
fn single(alloc: Global, number: i64) -> Result<Ints, NoMemory>
    ensures { IfOk result (λ l. l ≡ number ∷ []) }
{
    let mut numbers = Ints::new(alloc);
    numbers.push(number)?;
    Ok(numbers)
}

#[tactic(auto, using(mn_cursor::proofs::Turning::stops_first, mn_cursor::proofs::Turning::stops_second))]
fn one_number(scan: &mut Scan) -> Result<Argued, Stop>
    ensures moves { Moves scan.old scan.new }
    ensures gives { Gives (λ a. (argued_seen a, rest scan.new)) result (then_read (number_at no_break) (λ z. ret (one_number z)) (rest scan.old)) }
{
    let number = number(scan, None)?;
    Ok(listed(single(scan.alloc(), number)?))
}

#[tactic(auto, using(mn_cursor::proofs::Turning::stops_first, mn_cursor::proofs::Turning::stops_second))]
fn many_numbers(scan: &mut Scan, wanted: Wanted) -> Result<Argued, Stop>
    ensures moves { Moves scan.old scan.new }
    ensures gives { Gives (λ a. (argued_seen a, rest scan.new)) result (then_read (numbers_at (wanted_seen wanted)) (λ zs. ret (of_numbers zs)) (rest scan.old)) }
{
    Ok(listed(numbers(scan, wanted)?))
}

#[tactic(auto, using(mn_cursor::proofs::Turning::stops_first, mn_cursor::proofs::Turning::stops_second))]
fn one_range(scan: &mut Scan) -> Result<Argued, Stop>
    ensures moves { Moves scan.old scan.new }
    ensures gives { Gives (λ a. (argued_seen a, rest scan.new)) result (then_read range_at (λ zs. ret (of_numbers zs)) (rest scan.old)) }
{
    Ok(listed(range(scan)?))
}

#[tactic(auto, using(mn_cursor::proofs::Turning::stops_first, mn_cursor::proofs::Turning::stops_second))]
fn one_table(scan: &mut Scan, used: u64, length: u32) -> Result<Argued, Stop>
    ensures moves { Moves scan.old scan.new }
    ensures gives { Gives (λ a. (argued_seen a, rest scan.new)) result (then_read (table_at scan.old.problem used length) (λ tab. ret (of_tuples tab)) (rest scan.old)) }
{
    let tab = table(scan, used, length)?;
    Ok(Argued {
        value: Value::Tuples(tab),
        behind: None,
    })
}

/// Reads an argument, where the first argument has this length.
fn argument(scan: &mut Scan, used: u64, argument: Argument, length: u32) -> Result<Argued, Stop>
    ensures moves { Moves scan.old scan.new }
    ensures gives { (vs : List Meant) → length_wanted vs ≡ length → Gives (λ a. (argued_seen a, rest scan.new)) result (argument_at scan.old.problem used argument vs (rest scan.old)) }
{
    match argument {
        Argument::Term => one_term(scan),
        Argument::Vector(places) => one_vector(scan, bounds_of(places, length)),
        Argument::Number => one_number(scan),
        Argument::Numbers(numbers) => many_numbers(scan, wanted_of(numbers, length)),
        Argument::Range => one_range(scan),
        Argument::Tuples => one_table(scan, used, length),
    }
}

/// Reads an argument and the mark after it, where the first argument has this length.
pub fn argument_then(
    scan: &mut Scan,
    used: u64,
    kind: Argument,
    length: u32,
    mark: Mark,
) -> Result<Value, Stop>
    ensures moves { Moves scan.old scan.new }
    ensures gives { (vs : List Meant) → length_wanted vs ≡ length → Gives (λ v. (value_seen v, rest scan.new)) result (argument_then_at scan.old.problem used kind vs mark (rest scan.old)) }
{
    let argued = argument(scan, used, kind, length)?;
    scan.mark(mark, argued.kind())?;
    Ok(argued.value)
}
