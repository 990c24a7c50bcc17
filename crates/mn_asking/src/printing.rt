//! PRINT: the rows that are printed of a solution.
ghost use Rattle.std.specs.Prelude.{◌≡◌, ◌++◌, ◌<◌, [], None, IfOk, OnOk};
ghost use Rattle.mn_grammar.specs.Gives.{Gives};
ghost use Rattle.mn_grammar.specs.Lists.{items_at, turn_at};
ghost use Rattle.mn_grammar.specs.Reading.{one_of, which_of};
ghost use Rattle.mn_grammar.specs.declared.site.Site.TheVariants.{Fixed};
ghost use Rattle.mn_lexer.specs.declared.marks.Mark.TheVariants.{CloseSquare};
ghost use Rattle.mn_cursor.specs.Looks.{Sees};
ghost use Rattle.mn_cursor.specs.Progress.{rest, Moves};
ghost use Rattle.mn_references.specs.Listing.{turn_of};
ghost use Rattle.mn_references.specs.Referring.{row_at};
ghost use Rattle.mn_asking.specs.Asking.{print_seen};
ghost use Rattle.mn_asking.specs.Search.{all_rows, rows_ends};
ghost use Rattle.mn_asking.specs.Searching.{no_break, print_at, print_starts, print_token, rows_at};

use mn_cursor::Seen;
use mn_grammar::{Site, Stop};
use mn_lexer::Mark;
use mn_model::{Print, TermRows, Terms};
use mn_references::{Rows, Scan, Unfit, kind_of, row};
use std::alloc::AllocError;

/// What stands after PRINT.
#[derive(Clone, Copy, Debug)]
pub enum PrintStart {
    All,
    Nothing,
    /// `[`.
    Listed,
}

// What stands after PRINT, at the place.
fn sees_print(scan: &Scan) -> Result<PrintStart, Stop>
    ensures sees { Sees Fixed (which_of print_token print_starts) print_seen (rest scan.now) result }
    ensures there { IfOk result (λ _. 0 < scan.now.left) }
{
    match scan.look() {
        Some(Seen::Word(bytes)) => {
            if bytes == b"ALL".as_slice() {
                return Ok(PrintStart::All);
            }
            if bytes == b"NONE".as_slice() {
                return Ok(PrintStart::Nothing);
            }
        }
        Some(Seen::Mark(Mark::OpenSquare)) => return Ok(PrintStart::Listed),
        _ => {}
    }
    Err(scan.unwanted(Site::Fixed))
}

// Reads what stands after PRINT.
#[tactic(auto, using(mn_cursor::proofs::Looking::unseen_stops, mn_cursor::proofs::Looking::seen_stops, mn_cursor::proofs::Looking::seen_reads), unfolding(mn_grammar::specs::Reading::one_of))]
fn print_start(scan: &mut Scan) -> Result<PrintStart, Stop>
    ensures moves { Moves scan.old scan.new }
    ensures gives { Gives (λ s. (print_seen s, rest scan.new)) result (one_of Fixed print_token print_starts no_break (rest scan.old)) }
{
    let start = sees_print(scan)?;
    scan.accept(None)?;
    Ok(start)
}

// Adds rows at the end. Answers what the token after them breaks, where that is their end.
fn push_rows(rows: &mut Vec<Terms>, read: Rows) -> Result<Option<Unfit>, AllocError>
    ensures added { OnOk result (rows.new.items ≡ rows.old.items ++ read.rows) }
    ensures behind { IfOk result (λ b. b ≡ read.behind) }
{
    let Rows { rows: more, behind } = read;
    let mut more = more.into_vec();
    rows.append(&mut more)?;
    Ok(behind)
}

// Reads a row and the mark after it. Answers whether the list goes on.
fn turn(scan: &mut Scan, rows: &mut Vec<Terms>) -> Result<bool, Stop>
    ensures moves { Moves scan.old scan.new }
    ensures gives { Gives (λ more. (turn_of rows.new.items more, rest scan.new)) result (turn_at CloseSquare rows_ends all_rows (λ _. row_at scan.old.problem) rows.old.items (rest scan.old)) }
{
    let read = row(scan)?;
    let behind = kind_of(push_rows(rows, read)?);
    scan.ends(Mark::CloseSquare, behind, behind)
}

// Reads one row or more, and the `]`.
fn some_rows(scan: &mut Scan) -> Result<TermRows, Stop>
    ensures moves { Moves scan.old scan.new }
    ensures gives { Gives (λ rows. (rows, rest scan.new)) result (items_at CloseSquare rows_ends all_rows (λ _. row_at scan.old.problem) [] (rest scan.old)) }
{
    let mut rows = Vec::new(scan.alloc());
    loop {
        let more = turn(scan, &mut rows)?;
        if !more {
            return Ok(TermRows::of(rows));
        }
    }
}

// Reads the rows after the `[`.
#[tactic(auto, using(mn_references::proofs::ListTurns::shut_stops, mn_references::proofs::ListTurns::shut_reads, mn_references::proofs::ListTurns::opened), unfolding(crate::specs::Searching::rows_at))]
fn rows(scan: &mut Scan) -> Result<TermRows, Stop>
    ensures moves { Moves scan.old scan.new }
    ensures gives { Gives (λ rows. (rows, rest scan.new)) result (rows_at scan.old.problem (rest scan.old)) }
{
    if scan.is_mark(Mark::CloseSquare) {
        scan.mark(Mark::CloseSquare, None)?;
        return Ok(TermRows::new(scan.alloc()));
    }
    some_rows(scan)
}

/// Reads what stands after PRINT.
pub fn print(scan: &mut Scan) -> Result<Print, Stop>
    ensures moves { Moves scan.old scan.new }
    ensures gives { Gives (λ what. (what, rest scan.new)) result (print_at scan.old.problem (rest scan.old)) }
{
    match print_start(scan)? {
        PrintStart::All => Ok(Print::All),
        PrintStart::Nothing => Ok(Print::Nothing),
        PrintStart::Listed => Ok(Print::Rows(rows(scan)?)),
    }
}
