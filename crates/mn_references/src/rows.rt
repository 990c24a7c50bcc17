//! The rows that are printed.
ghost use Rattle.std.specs.Prelude.{◌≡◌, [], ◌∷◌, ◌++◌, length, map, IfOk, OnOk};
ghost use Rattle.mn_grammar.specs.Gives.{Gives};
ghost use Rattle.mn_model.specs.declared.constraint.Term.TheVariants.{Var};
ghost use Rattle.mn_cursor.specs.Progress.{rest, Moves};
ghost use Rattle.mn_references.specs.Entries.{one_by_one, rows_of, run};
ghost use Rattle.mn_references.specs.Listing.{IsWhole};
ghost use Rattle.mn_references.specs.Placing.{placed_seen};
ghost use Rattle.mn_references.specs.Referring.{row_at};
ghost use Rattle.mn_references.specs.Rowing.{rows_seen};

use crate::entries::{Placed, entry};
use crate::lists::{Listed, by_itself, in_list, list, push_vars};
use crate::scan::Scan;
use crate::want::{Bounds, Unfit};
use mn_grammar::Stop;
use mn_lexer::Mark;
use mn_model::{PLACES, TermRows, Terms, VarId};
use std::alloc::{AllocError, Global};

/// Rows that are printed.
#[derive(Debug, Drop)]
pub struct Rows {
    pub rows: TermRows,
    /// What the token after them breaks, where that is their end.
    pub behind: Option<Unfit>,
}

// How far the last index of a matrix runs.
fn run(dims: &[u32]) -> usize
    ensures { result ≡ run dims.now }
{
    let mut run = 1;
    let mut left = dims;
    while let [dim, rest @ ..] = left {
        run = *dim as usize;
        left = rest;
    }
    run
}

// One row.
fn one_row(alloc: Global, terms: Terms) -> Result<TermRows, AllocError>
    ensures { IfOk result (λ rows. rows ≡ terms ∷ []) }
{
    let mut rows = TermRows::new(alloc);
    rows.push(terms)?;
    Ok(rows)
}

// The rows of a whole matrix, one for each run of its last index.
fn rows_of(alloc: Global, dims: &[u32], vars: &[VarId]) -> Result<TermRows, AllocError>
    requires some { dims.now ≡ [] → ⊥ }
    requires whole { IsWhole dims.now (length vars.now) }
    ensures { IfOk result (λ rows. rows ≡ rows_of dims.now (map Var vars.now)) }
{
    let run = run(dims);
    let mut rows = TermRows::new(alloc);
    let mut left = vars;
    while !left.is_empty() {
        let (front, back) = left.split_at(run);
        let mut row = Terms::new(alloc);
        push_vars(&mut row, front)?;
        rows.push(row)?;
        left = back;
    }
    Ok(rows)
}

// The rows of an entry without brackets around it.
fn one_by_one(alloc: Global, placed: &Placed) -> Result<Rows, AllocError>
    requires { IsWhole (placed_seen placed.now).dims (length (placed_seen placed.now).terms) }
    ensures { IfOk result (λ r. rows_seen r ≡ one_by_one (placed_seen placed.now)) }
{
    if let Placed::Named(reference) = placed {
        if !reference.dims.is_empty() {
            return Ok(Rows {
                rows: rows_of(alloc, reference.dims, reference.vars.as_slice())?,
                behind: reference.behind,
            });
        }
    }
    let Listed { terms, behind, .. } = by_itself(alloc, placed)?;
    Ok(Rows {
        rows: one_row(alloc, terms)?,
        behind,
    })
}

/// Reads a row.
pub fn row(scan: &mut Scan) -> Result<Rows, Stop>
    ensures moves { Moves scan.old scan.new }
    ensures gives { Gives (λ r. (rows_seen r, rest scan.new)) result (row_at scan.old.problem (rest scan.old)) }
{
    let any = Bounds {
        least: 0,
        most: PLACES,
        bits: false,
    };
    if scan.is_mark(Mark::OpenSquare) {
        scan.mark(Mark::OpenSquare, None)?;
        let terms = list(scan, any)?;
        return Ok(Rows {
            rows: one_row(scan.alloc(), terms)?,
            behind: None,
        });
    }
    scan.inst().lawful();
    let place = in_list(any, &Terms::new(scan.alloc()));
    let placed = entry(scan, place)?;
    Ok(one_by_one(scan.alloc(), &placed)?)
}
