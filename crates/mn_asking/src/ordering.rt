//! VARORDER: the variables that the search takes first.
ghost use Rattle.std.specs.Prelude.{◌≡◌, ◌++◌, ◌<◌, [], length, true, None, IfOk, OnOk};
ghost use Rattle.mn_grammar.specs.Gives.{Gives};
ghost use Rattle.mn_grammar.specs.Lists.{items_at, turn_at};
ghost use Rattle.mn_grammar.specs.Places.{when};
ghost use Rattle.mn_grammar.specs.Reading.{one_of, which_of};
ghost use Rattle.mn_grammar.specs.declared.Kind.TheVariants.{Limit};
ghost use Rattle.mn_grammar.specs.declared.Limit.TheVariants.{Vector};
ghost use Rattle.mn_grammar.specs.declared.site.Site.TheVariants.{Fixed};
ghost use Rattle.mn_lexer.specs.declared.marks.Mark.TheVariants.{CloseSquare};
ghost use Rattle.mn_cursor.specs.Looks.{Sees};
ghost use Rattle.mn_cursor.specs.Progress.{rest, Moves};
ghost use Rattle.mn_references.specs.Listing.{turn_of};
ghost use Rattle.mn_references.specs.Referring.{ref_at};
ghost use Rattle.mn_asking.specs.Search.{all_vars, at_full, order_aim, order_ends};
ghost use Rattle.mn_asking.specs.Searching.{behind_static, both, no_break, order_at, static_token, var_order_at};

use mn_cursor::Seen;
use mn_grammar::{Kind, Limit, Site, Stop};
use mn_lexer::Mark;
use mn_model::{PLACES, VarId, VarIds};
use mn_references::{Aimed, Reference, Scan, Unfit, kind_of, lesser, reference_at};
use std::alloc::AllocError;

// Whether STATIC stands after VARORDER, and not `[`.
fn sees_static(scan: &Scan) -> Result<bool, Stop>
    ensures sees { Sees Fixed (which_of static_token both) (λ b. b) (rest scan.now) result }
    ensures there { IfOk result (λ _. 0 < scan.now.left) }
{
    match scan.look() {
        Some(Seen::Word(bytes)) => {
            if bytes == b"STATIC".as_slice() {
                return Ok(true);
            }
        }
        Some(Seen::Mark(Mark::OpenSquare)) => return Ok(false),
        _ => {}
    }
    Err(scan.unwanted(Site::Fixed))
}

// Reads STATIC, or the `[`. Answers whether it is STATIC.
#[tactic(auto, using(mn_cursor::proofs::Looking::unseen_stops, mn_cursor::proofs::Looking::seen_stops, mn_cursor::proofs::Looking::seen_reads), unfolding(mn_grammar::specs::Reading::one_of))]
fn static_word(scan: &mut Scan) -> Result<bool, Stop>
    ensures moves { Moves scan.old scan.new }
    ensures gives { Gives (λ b. (b, rest scan.new)) result (one_of Fixed static_token both no_break (rest scan.old)) }
{
    let is_static = sees_static(scan)?;
    scan.accept(None)?;
    Ok(is_static)
}

// Adds variables at the end.
fn push_all(vars: &mut VarIds, more: &[VarId]) -> Result<(), AllocError>
    ensures { OnOk result (vars.new ≡ vars.old ++ more.now) }
{
    let mut left = more;
    while let [v, rest @ ..] = left {
        vars.push(*v)?;
        left = rest;
    }
    Ok(())
}

// Adds the variables of a reference. Answers what the token after it breaks, where that is its end.
fn push_reference(vars: &mut VarIds, reference: Reference) -> Result<Option<Unfit>, AllocError>
    ensures added { OnOk result (vars.new ≡ vars.old ++ reference.entry.vars) }
    ensures behind { IfOk result (λ b. b ≡ reference.entry.behind) }
{
    push_all(vars, reference.vars.as_slice())?;
    Ok(reference.behind)
}

// What the `,` after these variables breaks.
fn at_full(vars: &VarIds) -> Option<Kind>
    ensures { result ≡ at_full vars.now }
{
    if PLACES as usize <= vars.len() {
        Some(Kind::Limit(Limit::Vector))
    } else {
        None
    }
}

// Reads a reference of VARORDER and the mark after it. Answers whether the list goes on.
fn turn(scan: &mut Scan, vars: &mut VarIds) -> Result<bool, Stop>
    ensures moves { Moves scan.old scan.new }
    ensures gives { Gives (λ more. (turn_of vars.new more, rest scan.new)) result (turn_at CloseSquare order_ends all_vars (λ before. ref_at scan.old.problem (order_aim before)) vars.old (rest scan.old)) }
{
    let reference = reference_at(scan, Aimed::Ordered(vars.len()))?;
    let behind = kind_of(push_reference(vars, reference)?);
    let comma = lesser(behind, at_full(vars));
    scan.ends(Mark::CloseSquare, comma, behind)
}

// Reads one reference or more, and the `]`.
fn references(scan: &mut Scan) -> Result<VarIds, Stop>
    ensures moves { Moves scan.old scan.new }
    ensures gives { Gives (λ vars. (vars, rest scan.new)) result (items_at CloseSquare order_ends all_vars (λ before. ref_at scan.old.problem (order_aim before)) [] (rest scan.old)) }
{
    let mut vars = VarIds::new(scan.alloc());
    loop {
        let more = turn(scan, &mut vars)?;
        if !more {
            return Ok(vars);
        }
    }
}

// Reads the references of VARORDER after the `[`.
#[tactic(auto, using(mn_references::proofs::ListTurns::shut_stops, mn_references::proofs::ListTurns::shut_reads, mn_references::proofs::ListTurns::opened), unfolding(crate::specs::Searching::order_at))]
fn order(scan: &mut Scan) -> Result<VarIds, Stop>
    ensures moves { Moves scan.old scan.new }
    ensures gives { Gives (λ vars. (vars, rest scan.new)) result (order_at scan.old.problem (rest scan.old)) }
{
    if scan.is_mark(Mark::CloseSquare) {
        scan.mark(Mark::CloseSquare, None)?;
        return Ok(VarIds::new(scan.alloc()));
    }
    references(scan)
}

// Reads what stands after STATIC, or after the `[` where there is no STATIC.
fn behind_static(scan: &mut Scan, is_static: bool) -> Result<VarIds, Stop>
    ensures moves { Moves scan.old scan.new }
    ensures gives { Gives (λ vars. (vars, rest scan.new)) result (behind_static scan.old.problem is_static (rest scan.old)) }
{
    if is_static {
        scan.mark(Mark::OpenSquare, None)?;
        return order(scan);
    }
    order(scan)
}

/// Reads what stands after VARORDER.
pub fn var_order(scan: &mut Scan) -> Result<VarIds, Stop>
    ensures moves { Moves scan.old scan.new }
    ensures gives { Gives (λ vars. (vars, rest scan.new)) result (var_order_at scan.old.problem (rest scan.old)) }
{
    let is_static = static_word(scan)?;
    behind_static(scan, is_static)
}
