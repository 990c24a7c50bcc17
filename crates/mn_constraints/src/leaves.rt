//! Constraints that have no others inside: the arguments of a form, and what they stand for together.
ghost use Rattle.std.specs.Prelude.{◌≡◌, ◌<◌, ◌≤◌, ◌++◌, ◌∷◌, [], length, IfErr, IfOk};
ghost use Rattle.mn_cursor.specs.Progress.{rest, Moves};
ghost use Rattle.mn_grammar.specs.Gives.{Gives};
ghost use Rattle.mn_grammar.specs.Rows.{row_at};
ghost use Rattle.mn_grammar.specs.declared.Stop.TheVariants.{NoMemory};
ghost use Rattle.mn_language.specs.Arguments.{behind_argument, length_of, length_wanted};
ghost use Rattle.mn_language.specs.Constraints.{meaning};
ghost use Rattle.mn_language.specs.Constructing.{argument_at, leaf_at};
ghost use Rattle.mn_language.specs.Values.{value_seen};
ghost use Rattle.mn_constraints.specs.Filling.{row_seen};

use crate::arguments::argument_then;
use mn_grammar::Stop;
use mn_language::{Argument, Leaf, Value, arguments_of, meaning};
use mn_lexer::Mark;
use mn_model::Con;
use mn_references::Scan;
use std::alloc::Global;

/// The arguments of a form, in order.
#[derive(Debug, Drop)]
pub enum Row {
    Empty,
    One(Value),
    Two(Value, Value),
    Three(Value, Value, Value),
}

/// How long an argument is: a vector, or a list of numbers.
fn length_of(value: &Value) -> usize
    ensures { result ≡ length_of (value_seen value.now) }
{
    match value {
        Value::Terms(terms) => terms.len(),
        Value::Numbers(numbers) => numbers.len(),
        _ => 0,
    }
}

impl Row {
    /// The length that a later argument has to agree with.
    fn length(&self) -> Result<u32, Stop>
        ensures ok { IfOk result (λ n. n ≡ length_wanted (row_seen self.now)) }
        ensures err { IfErr result (λ e. e ≡ NoMemory) }
    {
        let length = match self {
            Row::Empty => 0,
            Row::One(first) | Row::Two(first, _) | Row::Three(first, _, _) => length_of(first),
        };
        match u32::try_from(length) {
            Ok(length) => Ok(length),
            Err(_) => Err(Stop::NoMemory),
        }
    }

    /// With one more argument.
    fn with(self, value: Value) -> Row
        requires { length (row_seen self) < 3 }
        ensures { row_seen result ≡ row_seen self ++ value_seen value ∷ [] }
    {
        match self {
            Row::Empty => Row::One(value),
            Row::One(first) => Row::Two(first, value),
            Row::Two(first, second) => Row::Three(first, second, value),
            Row::Three(first, second, third) => Row::Three(first, second, third),
        }
    }

    /// The constraint of a form with these arguments.
    fn meaning(self, alloc: Global, leaf: Leaf) -> Con
        ensures { result ≡ meaning leaf (row_seen self) }
    {
        match self {
            Row::Empty => meaning(alloc, leaf, Value::Nothing, Value::Nothing, Value::Nothing),
            Row::One(first) => meaning(alloc, leaf, first, Value::Nothing, Value::Nothing),
            Row::Two(first, second) => meaning(alloc, leaf, first, second, Value::Nothing),
            Row::Three(first, second, third) => meaning(alloc, leaf, first, second, third),
        }
    }
}

/// Reads the arguments of a form, and the `)` after them.
fn all_arguments(scan: &mut Scan, used: u64, takes: &[Argument]) -> Result<Row, Stop>
    requires { length takes.now ≤ 3 }
    ensures moves { Moves scan.old scan.new }
    ensures gives { Gives (λ r. (row_seen r, rest scan.new)) result (row_at behind_argument (argument_at scan.old.problem used) takes.now (rest scan.old)) }
{
    let [first, others @ ..] = takes else {
        scan.mark(Mark::CloseRound, None)?;
        return Ok(Row::Empty);
    };
    let mut row = Row::Empty;
    let mut argument = *first;
    let mut left = others;
    while let [next, others @ ..] = left {
        let length = row.length()?;
        row = row.with(argument_then(scan, used, argument, length, Mark::Comma)?);
        argument = *next;
        left = others;
    }
    let length = row.length()?;
    Ok(row.with(argument_then(scan, used, argument, length, Mark::CloseRound)?))
}

/// Reads what stands after the name of a form without others inside. So many cells are used before it.
pub fn leaf(scan: &mut Scan, used: u64, leaf: Leaf) -> Result<Con, Stop>
    ensures moves { Moves scan.old scan.new }
    ensures gives { Gives (λ con. (con, rest scan.new)) result (leaf_at scan.old.problem used leaf (rest scan.old)) }
{
    scan.mark(Mark::OpenRound, None)?;
    let row = all_arguments(scan, used, arguments_of(leaf))?;
    Ok(row.meaning(scan.alloc(), leaf))
}
