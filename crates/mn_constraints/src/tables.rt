//! Tables: tuples written out, or the name of a tuple list.
ghost use Rattle.std.specs.Prelude.{◌≡◌, ◌<◌, [], length, drop, take, IfNone, IfOk, OnOk};
ghost use Rattle.mn_cursor.specs.Looks.{Sees};
ghost use Rattle.mn_cursor.specs.Progress.{rest, Moves};
ghost use Rattle.mn_grammar.specs.Gives.{Gives};
ghost use Rattle.mn_grammar.specs.Lists.{turn_at};
ghost use Rattle.mn_grammar.specs.declared.site.Site.TheVariants.{Free};
ghost use Rattle.mn_lexer.specs.declared.marks.Mark.TheVariants.{CloseCurly};
ghost use Rattle.mn_model.specs.Name.{IsName};
ghost use Rattle.mn_model.specs.Problem.{listed_as};
ghost use Rattle.mn_language.specs.Arguments.{at_list, at_tuple, list_place, tuple_ends, with_tuple};
ghost use Rattle.mn_language.specs.Constructing.{table_at, tuple_at, which_table};
ghost use Rattle.mn_references.specs.Listing.{turn_of};
ghost use Rattle.mn_constraints.specs.Tabling.{start_seen, tuples_behind, tuples_from, IsStartName};

use crate::numbers::{Wanted, numbers_to};
use mn_cursor::{Seen, str_of};
use mn_grammar::{Kind, Limit, Site, Stop, is_name};
use mn_lexer::Mark;
use mn_model::{CELLS, Instance, Ints, Tab};
use mn_references::Scan;

/// The first token of a table.
#[derive(Clone, Copy, Debug)]
pub enum Start<'a> {
    Name(&'a [u8]),
    /// `{`.
    Open,
}

/// The first token of a table.
#[tactic(auto, using(mn_cursor::proofs::Fair::is_a_name))]
fn sees_start<'a>(scan: &Scan<'_, 'a>) -> Result<Start<'a>, Stop>
    ensures sees { Sees Free which_table start_seen (rest scan.now) result }
    ensures there { IfOk result (λ _. 0 < scan.now.left) }
    ensures named { IfOk result IsStartName }
{
    match scan.look() {
        Some(Seen::Word(bytes)) if is_name(bytes) => Ok(Start::Name(bytes)),
        Some(Seen::Mark(Mark::OpenCurly)) => Ok(Start::Open),
        _ => Err(scan.unwanted(Site::Free)),
    }
}

/// What a tuple of so many numbers breaks after these cells, where so many are used before the table.
fn tuple_kind(used: u64, arity: u32, cells: &Ints) -> Option<Kind>
    ensures { result ≡ at_tuple used arity cells.now }
{
    let more = (cells.len() as u64).saturating_add(u64::from(arity));
    if CELLS < used.saturating_add(more) {
        Some(Kind::Limit(Limit::Cells))
    } else {
        None
    }
}

/// Reads a tuple, and puts its numbers after the cells of those before it.
fn tuple(scan: &mut Scan, used: u64, arity: u32, cells: &mut Ints) -> Result<(), Stop>
    ensures moves { Moves scan.old scan.new }
    ensures gives { Gives (λ _. (drop (length cells.old) cells.new, rest scan.new)) result (tuple_at used arity cells.old (rest scan.old)) }
    ensures keeps { OnOk result (take (length cells.old) cells.new ≡ cells.old) }
{
    scan.mark(Mark::Less, tuple_kind(used, arity, cells))?;
    let wanted = Wanted {
        count: Some(arity),
        limited: false,
        paired: false,
    };
    numbers_to(scan, Mark::Greater, wanted, cells)
}

/// Reads a tuple and the mark after it. Answers whether the tuples go on.
fn turn(scan: &mut Scan, used: u64, arity: u32, cells: &mut Ints) -> Result<bool, Stop>
    ensures moves { Moves scan.old scan.new }
    ensures gives { Gives (λ more. (turn_of cells.new more, rest scan.new)) result (turn_at CloseCurly tuple_ends with_tuple (tuple_at used arity) cells.old (rest scan.old)) }
{
    tuple(scan, used, arity, cells)?;
    scan.ends(Mark::CloseCurly, None, None)
}

/// Reads one tuple or more, up to the `}`.
fn tuples_to(scan: &mut Scan, used: u64, arity: u32) -> Result<Ints, Stop>
    ensures moves { Moves scan.old scan.new }
    ensures gives { Gives (λ l. (l, rest scan.new)) result (tuples_from used arity [] (rest scan.old)) }
{
    let mut cells = Ints::new(scan.alloc());
    loop {
        let more = turn(scan, used, arity, &mut cells)?;
        if !more {
            return Ok(cells);
        }
    }
}

/// Reads tuples after the `{`.
#[tactic(auto, using(mn_references::proofs::ListTurns::shut_stops, mn_references::proofs::ListTurns::shut_reads, mn_references::proofs::ListTurns::opened), unfolding(crate::specs::Tabling::tuples_behind, crate::specs::Tabling::tuples_from))]
fn tuples(scan: &mut Scan, used: u64, arity: u32) -> Result<Ints, Stop>
    ensures moves { Moves scan.old scan.new }
    ensures gives { Gives (λ l. (l, rest scan.new)) result (tuples_behind used arity (rest scan.old)) }
{
    if scan.is_mark(Mark::CloseCurly) {
        scan.mark(Mark::CloseCurly, None)?;
        return Ok(Ints::new(scan.alloc()));
    }
    tuples_to(scan, used, arity)
}

/// What the name of a tuple list breaks, where tuples of this length are wanted, and the list's place.
fn named(inst: &Instance, name: &[u8], arity: u32) -> (Option<Kind>, usize)
    requires { IsName name.now }
    ensures kind { result.0 ≡ at_list arity (listed_as inst.now.tuples name.now) }
    ensures place { IfNone result.0 (result.1 ≡ list_place inst.now.tuples name.now) }
{
    let Some(place) = inst.find_tuples(str_of(name)) else {
        return (Some(Kind::Name), 0);
    };
    inst.lawful();
    let size = inst.tuples()[place].arity;
    let kind = if size == u64::from(arity) {
        None
    } else {
        Some(Kind::Shape)
    };
    (kind, place)
}

/// Reads a table, whose tuples have this length. So many cells are used before it.
pub fn table(scan: &mut Scan, used: u64, arity: u32) -> Result<Tab, Stop>
    ensures moves { Moves scan.old scan.new }
    ensures gives { Gives (λ tab. (tab, rest scan.new)) result (table_at scan.old.problem used arity (rest scan.old)) }
{
    match sees_start(scan)? {
        Start::Name(name) => {
            let (kind, place) = named(scan.inst(), name, arity);
            scan.accept(kind)?;
            let Ok(place) = u32::try_from(place) else {
                return Err(Stop::NoMemory);
            };
            Ok(Tab::Named(place))
        }
        Start::Open => {
            scan.accept(None)?;
            let cells = tuples(scan, used, arity)?;
            Ok(Tab::Here { arity, cells })
        }
    }
}
