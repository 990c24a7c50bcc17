//! Terms, bracketed lists of entries, and vectors.
ghost use Rattle.std.specs.Prelude.{◌≡◌, ◌++◌, [], length, map, None, IfOk, OnOk};
ghost use Rattle.mn_grammar.specs.Gives.{Gives};
ghost use Rattle.mn_grammar.specs.Lists.{items_at, turn_at};
ghost use Rattle.mn_lexer.specs.declared.marks.Mark.TheVariants.{CloseSquare};
ghost use Rattle.mn_model.specs.Problem.{Problem};
ghost use Rattle.mn_model.specs.declared.constraint.Term.TheVariants.{Var};
ghost use Rattle.mn_cursor.specs.Progress.{rest, Moves};
ghost use Rattle.mn_references.specs.Entries.{a_term, at_enough, at_more, in_list, list_ends, listed_terms};
ghost use Rattle.mn_references.specs.Listing.{listed_seen, turn_of};
ghost use Rattle.mn_references.specs.Placing.{place_seen, placed_seen};
ghost use Rattle.mn_references.specs.Referring.{entry_at, list_at, vector_at};

use crate::aims::Aimed;
use crate::entries::{Placed, Placing, entry, lesser};
use crate::references::{kind_of, reference_at};
use crate::scan::Scan;
use crate::want::{Bounds, Unfit};
use mn_grammar::{Kind, Limit, Stop};
use mn_lexer::Mark;
use mn_model::{PLACES, Term, Terms, VarId};
use std::alloc::{AllocError, Global};

/// The terms of an entry or of a vector, one after another in the order of the text.
#[derive(Debug, Drop)]
pub struct Listed<'c> {
    pub terms: Terms,
    /// The dimensions of a whole matrix that is named without indices.
    pub dims: &'c [u32],
    /// What the token after it breaks, where that is its end.
    pub behind: Option<Unfit>,
}

/// Adds variables at the end.
pub fn push_vars(terms: &mut Terms, vars: &[VarId]) -> Result<(), AllocError>
    ensures { OnOk result (terms.new ≡ terms.old ++ map Var vars.now) }
{
    let mut left = vars;
    while let [v, rest @ ..] = left {
        terms.push(Term::Var(*v))?;
        left = rest;
    }
    Ok(())
}

// Adds what an entry stands for.
fn push_terms(terms: &mut Terms, placed: &Placed) -> Result<(), AllocError>
    ensures { OnOk result (terms.new ≡ terms.old ++ (placed_seen placed.now).terms) }
{
    match placed {
        Placed::Named(reference) => push_vars(terms, reference.vars.as_slice()),
        Placed::Constant(z) => terms.push(Term::Const(*z)),
        Placed::Denied(reference) => match reference.vars.as_slice() {
            [] => Ok(()),
            [v, ..] => terms.push(Term::Not(*v)),
        },
    }
}

// What the token after an entry breaks, where that is its end.
fn behind(placed: &Placed) -> Option<Unfit>
    ensures { result ≡ (placed_seen placed.now).behind }
{
    match placed {
        Placed::Named(reference) => reference.behind,
        Placed::Constant(_) => None,
        Placed::Denied(reference) => reference.behind,
    }
}

// The dimensions of a whole matrix.
fn dims<'c>(placed: &Placed<'c>) -> &'c [u32]
    ensures { result.now ≡ (placed_seen placed.now).dims }
{
    match placed {
        Placed::Named(reference) => reference.dims,
        _ => &[],
    }
}

// Adds what an entry stands for. Answers what the token after it breaks, where that is its end.
fn push_placed(terms: &mut Terms, placed: Placed) -> Result<Option<Unfit>, AllocError>
    ensures added { OnOk result (terms.new ≡ terms.old ++ (placed_seen placed.entry).terms) }
    ensures behind { IfOk result (λ b. b ≡ (placed_seen placed.entry).behind) }
{
    push_terms(terms, &placed)?;
    Ok(behind(&placed))
}

/// The terms of an entry by itself.
pub fn by_itself<'c>(alloc: Global, placed: &Placed<'c>) -> Result<Listed<'c>, AllocError>
    ensures { IfOk result (λ v. listed_seen v ≡ placed_seen placed.now) }
{
    let mut terms = Terms::new(alloc);
    push_terms(&mut terms, placed)?;
    Ok(Listed {
        terms,
        dims: dims(placed),
        behind: behind(placed),
    })
}

/// Reads a term, or where `bits` a 0/1 term.
pub fn term<'c>(scan: &mut Scan<'c, '_>, bits: bool) -> Result<Listed<'c>, Stop>
    ensures moves { Moves scan.old scan.new }
    ensures gives { Gives (λ v. (listed_seen v, rest scan.new)) result (entry_at scan.old.problem (a_term scan.old.problem bits) (rest scan.old)) }
{
    let place = Placing {
        first: None,
        bits,
        aim: Aimed::One(bits),
    };
    let placed = entry(scan, place)?;
    Ok(by_itself(scan.alloc(), &placed)?)
}

/// What is wanted of an entry after these terms of a list.
pub fn in_list(bounds: Bounds, terms: &Terms) -> Placing
    ensures { (p : Problem) → place_seen p result ≡ in_list p bounds terms.now }
{
    let count = terms.len();
    Placing {
        first: if bounds.most as usize <= count {
            Some(Kind::Shape)
        } else {
            None
        },
        bits: bounds.bits,
        aim: Aimed::Part(bounds, count),
    }
}

// What the `,` after so many places of a list breaks.
fn at_more(bounds: Bounds, count: usize) -> Option<Kind>
    ensures { result ≡ at_more bounds count }
{
    let passed = if PLACES as usize <= count {
        Some(Kind::Limit(Limit::Vector))
    } else {
        None
    };
    let unwanted = if bounds.most as usize <= count {
        Some(Kind::Shape)
    } else {
        None
    };
    lesser(passed, unwanted)
}

// What the `]` after so many places of a list breaks.
fn at_enough(bounds: Bounds, count: usize) -> Option<Kind>
    ensures { result ≡ at_enough bounds count }
{
    if count < bounds.least as usize {
        Some(Kind::Shape)
    } else {
        None
    }
}

// Reads an entry of a list and the mark after it. Answers whether the list goes on.
fn turn(scan: &mut Scan, bounds: Bounds, terms: &mut Terms) -> Result<bool, Stop>
    ensures moves { Moves scan.old scan.new }
    ensures gives { Gives (λ more. (turn_of terms.new more, rest scan.new)) result (turn_at CloseSquare (list_ends bounds) listed_terms (λ before. entry_at scan.old.problem (in_list scan.old.problem bounds before)) terms.old (rest scan.old)) }
{
    let placed = entry(scan, in_list(bounds, terms))?;
    let behind = kind_of(push_placed(terms, placed)?);
    let count = terms.len();
    let comma = lesser(behind, at_more(bounds, count));
    let close = lesser(behind, at_enough(bounds, count));
    scan.ends(Mark::CloseSquare, comma, close)
}

// Reads one entry or more, and the `]`.
fn entries(scan: &mut Scan, bounds: Bounds) -> Result<Terms, Stop>
    ensures moves { Moves scan.old scan.new }
    ensures gives { Gives (λ terms. (terms, rest scan.new)) result (items_at CloseSquare (list_ends bounds) listed_terms (λ before. entry_at scan.old.problem (in_list scan.old.problem bounds before)) [] (rest scan.old)) }
{
    let mut terms = Terms::new(scan.alloc());
    loop {
        let more = turn(scan, bounds, &mut terms)?;
        if !more {
            return Ok(terms);
        }
    }
}

/// Reads a bracketed list of entries after its `[`.
#[tactic(auto, using(crate::proofs::ListTurns::shut_stops, crate::proofs::ListTurns::shut_reads, crate::proofs::ListTurns::opened), unfolding(crate::specs::Referring::list_at))]
pub fn list(scan: &mut Scan, bounds: Bounds) -> Result<Terms, Stop>
    ensures moves { Moves scan.old scan.new }
    ensures gives { Gives (λ terms. (terms, rest scan.new)) result (list_at scan.old.problem bounds (rest scan.old)) }
{
    if scan.is_mark(Mark::CloseSquare) {
        scan.mark(Mark::CloseSquare, at_enough(bounds, 0))?;
        return Ok(Terms::new(scan.alloc()));
    }
    entries(scan, bounds)
}

/// Reads a vector.
pub fn vector<'c>(scan: &mut Scan<'c, '_>, bounds: Bounds) -> Result<Listed<'c>, Stop>
    ensures moves { Moves scan.old scan.new }
    ensures gives { Gives (λ v. (listed_seen v, rest scan.new)) result (vector_at scan.old.problem bounds (rest scan.old)) }
{
    if scan.is_mark(Mark::OpenSquare) {
        scan.mark(Mark::OpenSquare, None)?;
        let terms = list(scan, bounds)?;
        return Ok(Listed {
            terms,
            dims: &[],
            behind: None,
        });
    }
    let reference = reference_at(scan, Aimed::Whole(bounds))?;
    Ok(by_itself(scan.alloc(), &Placed::Named(reference))?)
}
