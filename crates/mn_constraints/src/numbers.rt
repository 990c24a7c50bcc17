//! Lists of numbers, and the two ends of a range.
ghost use Rattle.std.specs.Prelude.{◌≡◌, ◌≤◌, [], ◌∷◌, length, drop, take, IfOk, OnOk};
ghost use Rattle.mn_cursor.specs.Progress.{rest, Moves};
ghost use Rattle.mn_grammar.specs.Gives.{Gives};
ghost use Rattle.mn_grammar.specs.Lists.{turn_at};
ghost use Rattle.mn_grammar.specs.Places.{when};
ghost use Rattle.mn_grammar.specs.Reading.{number_at};
ghost use Rattle.mn_grammar.specs.declared.Kind.TheVariants.{Shape};
ghost use Rattle.mn_language.specs.Arguments.{at_another, at_close, at_one, is_full, number_ends, with_number};
ghost use Rattle.mn_language.specs.Constructing.{numbers_at, range_at};
ghost use Rattle.mn_references.specs.Listing.{turn_of};
ghost use Rattle.mn_constraints.specs.Numbering.{numbers_behind, numbers_from, wanted_seen};

use mn_grammar::{Kind, Limit, Stop};
use mn_lexer::Mark;
use mn_model::{Ints, NoMemory, PLACES};
use mn_references::{Scan, lesser};
use std::alloc::Global;

/// What is wanted of a list of numbers.
#[derive(Clone, Copy, Debug)]
pub struct Wanted {
    /// How many numbers, where that is told.
    pub count: Option<u32>,
    /// Whether it has the limit of a vector.
    pub limited: bool,
    /// Whether its numbers come in pairs.
    pub paired: bool,
}

impl Wanted {
    /// Whether no more than so many numbers are wanted.
    fn is_full(&self, count: usize) -> bool
        ensures { result ≡ is_full self.now.count count }
    {
        match self.count {
            None => false,
            Some(wanted) => wanted as usize <= count,
        }
    }

    /// Whether more than so many numbers are wanted.
    fn is_short(&self, count: usize) -> bool
        ensures { result ≡ Rattle.mn_language.specs.Arguments.is_short self.now.count count }
    {
        match self.count {
            None => false,
            Some(wanted) => count < wanted as usize,
        }
    }

    /// What a number breaks after so many.
    fn one_kind(&self, before: usize) -> Option<Kind>
        ensures { result ≡ when (is_full self.now.count before) Shape }
    {
        if self.is_full(before) {
            Some(Kind::Shape)
        } else {
            None
        }
    }

    /// What the `,` breaks after so many numbers.
    fn another_kind(&self, count: usize) -> Option<Kind>
        ensures { result ≡ at_another (wanted_seen self.now) count }
    {
        let long = self.limited && PLACES as usize <= count;
        lesser(
            if long {
                Some(Kind::Limit(Limit::Vector))
            } else {
                None
            },
            self.one_kind(count),
        )
    }

    /// What the end breaks after so many numbers.
    fn close_kind(&self, count: usize) -> Option<Kind>
        ensures { result ≡ at_close (wanted_seen self.now) count }
    {
        if self.is_short(count) || (self.paired && is_odd(count)) {
            Some(Kind::Shape)
        } else {
            None
        }
    }
}

fn is_odd(count: usize) -> bool
    ensures { result ≡ Rattle.mn_language.specs.Arguments.is_odd count }
{
    count % 2 == 1
}

/// Reads a number, unless a condition on it is broken.
#[tactic(auto, using(mn_cursor::proofs::Looking::unseen_stops, mn_cursor::proofs::Looking::seen_stops, mn_cursor::proofs::Looking::seen_reads), unfolding(mn_grammar::specs::Reading::number_at))]
pub fn number(scan: &mut Scan, broken: Option<Kind>) -> Result<i64, Stop>
    ensures moves { Moves scan.old scan.new }
    ensures gives { Gives (λ n. (n, rest scan.new)) result (number_at (λ z. broken) (rest scan.old)) }
{
    let number = scan.number()?;
    scan.accept(broken)?;
    Ok(number)
}

/// How many numbers there are after the first so many.
fn behind(numbers: &Ints, first: usize) -> usize
    ensures { result ≡ length (drop first numbers.now) }
{
    numbers.len().saturating_sub(first)
}

/// Reads a number and the mark after it, where the list's numbers are those after the first so many. Answers whether
/// the list goes on.
fn turn(
    scan: &mut Scan,
    shut: Mark,
    wanted: Wanted,
    first: usize,
    numbers: &mut Ints,
) -> Result<bool, Stop>
    requires { first ≤ length numbers.old }
    ensures moves { Moves scan.old scan.new }
    ensures gives { Gives (λ more. (turn_of (drop first numbers.new) more, rest scan.new)) result (turn_at shut (number_ends (wanted_seen wanted)) with_number (λ before. number_at (at_one (wanted_seen wanted) before)) (drop first numbers.old) (rest scan.old)) }
    ensures keeps { IfOk result (λ _. take first numbers.new ≡ take first numbers.old) }
    ensures longer { IfOk result (λ _. first ≤ length numbers.new) }
{
    let number = number(scan, wanted.one_kind(behind(numbers, first)))?;
    numbers.push(number)?;
    let count = behind(numbers, first);
    scan.ends(shut, wanted.another_kind(count), wanted.close_kind(count))
}

/// Reads one number or more, with `,` between, and the mark that closes them. Puts them after those that are there.
pub fn numbers_to(
    scan: &mut Scan,
    shut: Mark,
    wanted: Wanted,
    numbers: &mut Ints,
) -> Result<(), Stop>
    ensures moves { Moves scan.old scan.new }
    ensures gives { Gives (λ _. (drop (length numbers.old) numbers.new, rest scan.new)) result (numbers_from shut (wanted_seen wanted) [] (rest scan.old)) }
    ensures keeps { OnOk result (take (length numbers.old) numbers.new ≡ numbers.old) }
{
    let first = numbers.len();
    loop {
        let more = turn(scan, shut, wanted, first, numbers)?;
        if !more {
            return Ok(());
        }
    }
}

/// Reads a list of numbers after its `[`.
#[tactic(auto, using(mn_references::proofs::ListTurns::shut_stops, mn_references::proofs::ListTurns::shut_reads, mn_references::proofs::ListTurns::opened), unfolding(crate::specs::Numbering::numbers_behind, crate::specs::Numbering::numbers_from))]
fn numbers_behind(scan: &mut Scan, wanted: Wanted) -> Result<Ints, Stop>
    ensures moves { Moves scan.old scan.new }
    ensures gives { Gives (λ l. (l, rest scan.new)) result (numbers_behind (wanted_seen wanted) (rest scan.old)) }
{
    let mut numbers = Ints::new(scan.alloc());
    if scan.is_mark(Mark::CloseSquare) {
        scan.mark(Mark::CloseSquare, wanted.close_kind(0))?;
        return Ok(numbers);
    }
    numbers_to(scan, Mark::CloseSquare, wanted, &mut numbers)?;
    Ok(numbers)
}

/// Reads a list of numbers in brackets.
#[tactic(auto, using(mn_cursor::proofs::Turning::stops_first, mn_cursor::proofs::Turning::stops_second), unfolding(mn_language::specs::Constructing::numbers_at, crate::specs::Numbering::numbers_behind))]
pub fn numbers(scan: &mut Scan, wanted: Wanted) -> Result<Ints, Stop>
    ensures moves { Moves scan.old scan.new }
    ensures gives { Gives (λ l. (l, rest scan.new)) result (numbers_at (wanted_seen wanted) (rest scan.old)) }
{
    scan.mark(Mark::OpenSquare, None)?;
    numbers_behind(scan, wanted)
}

/// Two numbers as a list.
fn pair(alloc: Global, low: i64, high: i64) -> Result<Ints, NoMemory>
    ensures { IfOk result (λ l. l ≡ low ∷ high ∷ []) }
{
    let mut numbers = Ints::new(alloc);
    numbers.push(low)?;
    numbers.push(high)?;
    Ok(numbers)
}

/// Reads two numbers in brackets.
#[tactic(auto, using(mn_cursor::proofs::Turning::stops_first, mn_cursor::proofs::Turning::stops_second), unfolding(mn_language::specs::Constructing::range_at))]
pub fn range(scan: &mut Scan) -> Result<Ints, Stop>
    ensures moves { Moves scan.old scan.new }
    ensures gives { Gives (λ l. (l, rest scan.new)) result (range_at (rest scan.old)) }
{
    scan.mark(Mark::OpenSquare, None)?;
    let low = number(scan, None)?;
    scan.mark(Mark::Comma, None)?;
    let high = number(scan, None)?;
    scan.mark(Mark::CloseSquare, None)?;
    Ok(pair(scan.alloc(), low, high)?)
}
