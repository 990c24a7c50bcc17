//! Constraints inside constraints, as deep as the limit allows.
ghost use Rattle.std.specs.Prelude.{◌≡◌, ℕ, ◌+◌, ◌<◌, ◌≤◌, [], None, IfOk, IfSome};
ghost use Rattle.mn_cursor.specs.Looks.{first_as, terminal_of, Sees};
ghost use Rattle.mn_cursor.specs.Progress.{rest, Moves};
ghost use Rattle.mn_grammar.specs.Gives.{Gives};
ghost use Rattle.mn_grammar.specs.Lists.{turn_at};
ghost use Rattle.mn_grammar.specs.declared.site.Site.TheVariants.{Fixed};
ghost use Rattle.mn_lexer.specs.declared.marks.Mark.TheVariants.{CloseCurly};
ghost use Rattle.mn_model.specs.Parts.{cell_count};
ghost use Rattle.mn_model.specs.Problem.{total};
ghost use Rattle.mn_model.specs.declared.limits.TheConstants.{CELLS};
ghost use Rattle.mn_language.specs.Arguments.{term_of};
ghost use Rattle.mn_language.specs.Constraints.{at_form, at_inside, gathered, tied};
ghost use Rattle.mn_language.specs.Constructing.{child_ends, constraint_at, form_at, gather_at, leaf_at, tie_at, with_child};
ghost use Rattle.mn_references.specs.Listing.{turn_of};
ghost use Rattle.mn_constraints.specs.Nesting.{bit_at, child_at, children_behind, children_from, named_form};

use crate::leaves::leaf;
use mn_cursor::Seen;
use mn_grammar::{Kind, Limit, Site, Stop};
use mn_language::{Form, Gather, Leaf, Tie, form_of};
use mn_lexer::Mark;
use mn_model::{Con, Cons, NoMemory, Term, Terms};
use mn_references::{Scan, kind_of, lesser, term};
use sqlite_items::Boxed;
use std::alloc::Global;

/// The form whose name a token is.
#[tactic(auto, unfolding(crate::specs::Nesting::named_form))]
fn named_form(seen: Seen) -> Option<Form>
    ensures { result ≡ named_form (terminal_of seen.entry) }
{
    match seen {
        Seen::Word(bytes) => form_of(bytes),
        _ => None,
    }
}

/// The form whose name stands at the place, if one does.
fn next_form(scan: &Scan) -> Option<Form>
    ensures next { result ≡ first_as named_form (rest scan.now) }
    ensures there { IfSome result (λ _. 0 < scan.now.left) }
{
    named_form(scan.look()?)
}

/// The form whose name stands at the place.
fn sees_form(scan: &Scan) -> Result<Form, Stop>
    ensures sees { Sees Fixed named_form (λ f. f) (rest scan.now) result }
    ensures there { IfOk result (λ _. 0 < scan.now.left) }
{
    match next_form(scan) {
        Some(form) => Ok(form),
        None => Err(scan.unwanted(Site::Fixed)),
    }
}

/// What the name of a form breaks by its depth.
fn depth_kind(depth: u32, form: Form) -> Option<Kind>
    ensures { result ≡ at_inside depth form }
{
    match form {
        Form::Leaf(_) => None,
        Form::Gather(_) | Form::Tie(_) => {
            if depth == 0 {
                Some(Kind::Limit(Limit::Nesting))
            } else {
                None
            }
        }
    }
}

/// What the name of a form breaks.
fn form_kind(depth: u32, full: bool, form: Form) -> Option<Kind>
    ensures { (n : ℕ) → result ≡ at_form depth (record { full = full; cells = n }) form }
{
    let limit = if full {
        Some(Kind::Limit(Limit::Constraints))
    } else {
        None
    };
    lesser(limit, depth_kind(depth, form))
}

/// Reads the name of a form.
fn form(scan: &mut Scan, depth: u32, full: bool) -> Result<Form, Stop>
    ensures moves { Moves scan.old scan.new }
    ensures gives { (n : ℕ) → Gives (λ f. (f, rest scan.new)) result (form_at depth (record { full = full; cells = n }) (rest scan.old)) }
    ensures deep { IfOk result (λ f. at_inside depth f ≡ None) }
{
    let form = sees_form(scan)?;
    scan.accept(form_kind(depth, full, form))?;
    Ok(form)
}

/// Reads what stands after the name of a form without others inside, and counts its cells.
fn counted(scan: &mut Scan, name: Leaf, used: &mut u64) -> Result<Con, Stop>
    requires { used.old ≤ CELLS }
    ensures moves { Moves scan.old scan.new }
    ensures gives { Gives (λ con. (con, rest scan.new)) result (leaf_at scan.old.problem used.old name (rest scan.old)) }
    ensures counts { IfOk result (λ con. used.new ≡ used.old + cell_count con) }
    ensures few { IfOk result (λ con. used.new ≤ CELLS) }
{
    scan.lawful();
    scan.inst().lawful();
    let con = leaf(scan, *used, name)?;
    *used += con.cells();
    Ok(con)
}

/// What constraints stand for together.
fn together(alloc: Global, gather: Gather, children: Vec<Con>) -> Result<Con, NoMemory>
    ensures { IfOk result (λ con. con ≡ gathered gather children.items) }
{
    let children = Cons::of(alloc, children)?;
    match gather {
        Gather::Or => Ok(Con::WatchedOr(children)),
        Gather::And => Ok(Con::WatchedAnd(children)),
    }
}

/// What a constraint stands for beside a 0/1 term.
fn beside(alloc: Global, tie: Tie, con: Con, bit: Term) -> Result<Con, NoMemory>
    ensures { IfOk result (λ whole. whole ≡ tied tie con bit) }
{
    let part = Boxed::new(alloc, con)?;
    match tie {
        Tie::Reify => Ok(Con::Reify(part, bit)),
        Tie::Reifyimply => Ok(Con::Reifyimply(part, bit)),
    }
}

/// The term of a list of one.
fn only(terms: &Terms) -> Term
    ensures { result ≡ term_of terms.now }
{
    match terms.as_slice() {
        [term, ..] => *term,
        [] => Term::Const(0),
    }
}

/// Reads the 0/1 term after a constraint, with the marks before and after it.
fn bit(scan: &mut Scan) -> Result<Term, Stop>
    ensures moves { Moves scan.old scan.new }
    ensures gives { Gives (λ r. (r, rest scan.new)) result (bit_at scan.old.problem (rest scan.old)) }
{
    scan.mark(Mark::Comma, None)?;
    let listed = term(scan, true)?;
    scan.mark(Mark::CloseRound, kind_of(listed.behind))?;
    Ok(only(&listed.terms))
}

/// Reads a constraint inside a form and the mark after it, and counts its cells after the first so many and those of the
/// others. Answers whether the constraints go on.
#[cycle(constraints)]
fn turn(
    scan: &mut Scan,
    depth: u32,
    _first: u64,
    children: &mut Vec<Con>,
    used: &mut u64,
) -> Result<bool, Stop>
    requires few { used.old ≤ CELLS }
    requires counted { used.old ≡ _first + total cell_count children.old.items }
    ensures moves { Moves scan.old scan.new }
    ensures gives { Gives (λ more. (turn_of children.new.items more, rest scan.new)) result (turn_at CloseCurly child_ends with_child (child_at scan.old.problem depth _first) children.old.items (rest scan.old)) }
    ensures counts { IfOk result (λ _. used.new ≡ _first + total cell_count children.new.items) }
    ensures few { IfOk result (λ _. used.new ≤ CELLS) }
{
    let child = constraint(scan, depth, false, used)?;
    children.push(child)?;
    scan.ends(Mark::CloseCurly, None, None)
}

/// Reads one constraint or more, up to the `}`, and counts their cells.
#[cycle(constraints)]
fn some_children(scan: &mut Scan, depth: u32, used: &mut u64) -> Result<Vec<Con>, Stop>
    requires { used.old ≤ CELLS }
    ensures moves { Moves scan.old scan.new }
    ensures gives { Gives (λ cs. (cs.items, rest scan.new)) result (children_from scan.old.problem depth used.old [] (rest scan.old)) }
    ensures counts { IfOk result (λ cs. used.new ≡ used.old + total cell_count cs.items) }
    ensures few { IfOk result (λ cs. used.new ≤ CELLS) }
{
    let first = *used;
    let mut children = Vec::new(scan.alloc());
    loop {
        let more = turn(scan, depth, first, &mut children, used)?;
        if !more {
            return Ok(children);
        }
    }
}

/// Reads the constraints inside a form after the `{`, and counts their cells.
#[cycle(constraints)]
fn children(scan: &mut Scan, depth: u32, used: &mut u64) -> Result<Vec<Con>, Stop>
    requires { used.old ≤ CELLS }
    ensures moves { Moves scan.old scan.new }
    ensures gives { Gives (λ cs. (cs.items, rest scan.new)) result (children_behind scan.old.problem depth used.old (rest scan.old)) }
    ensures counts { IfOk result (λ cs. used.new ≡ used.old + total cell_count cs.items) }
    ensures few { IfOk result (λ cs. used.new ≤ CELLS) }
{
    if scan.is_mark(Mark::CloseCurly) {
        scan.mark(Mark::CloseCurly, None)?;
        return Ok(Vec::new(scan.alloc()));
    }
    some_children(scan, depth, used)
}

/// Reads what stands after the name of a form of several constraints, and counts its cells.
#[cycle(constraints)]
fn gather(scan: &mut Scan, depth: u32, name: Gather, used: &mut u64) -> Result<Con, Stop>
    requires { used.old ≤ CELLS }
    ensures moves { Moves scan.old scan.new }
    ensures gives { Gives (λ con. (con, rest scan.new)) result (gather_at used.old (constraint_at scan.old.problem depth) name (rest scan.old)) }
    ensures counts { IfOk result (λ con. used.new ≡ used.old + cell_count con) }
    ensures few { IfOk result (λ con. used.new ≤ CELLS) }
{
    scan.mark(Mark::OpenRound, None)?;
    scan.mark(Mark::OpenCurly, None)?;
    let children = children(scan, depth, used)?;
    scan.mark(Mark::CloseRound, None)?;
    Ok(together(scan.alloc(), name, children)?)
}

/// Reads what stands after the name of a form of a constraint and a 0/1 term, and counts its cells.
#[cycle(constraints)]
fn tie(scan: &mut Scan, depth: u32, name: Tie, used: &mut u64) -> Result<Con, Stop>
    requires { used.old ≤ CELLS }
    ensures moves { Moves scan.old scan.new }
    ensures gives { Gives (λ con. (con, rest scan.new)) result (tie_at scan.old.problem used.old (constraint_at scan.old.problem depth) name (rest scan.old)) }
    ensures counts { IfOk result (λ con. used.new ≡ used.old + cell_count con) }
    ensures few { IfOk result (λ con. used.new ≤ CELLS) }
{
    scan.mark(Mark::OpenRound, None)?;
    let con = constraint(scan, depth, false, used)?;
    let bit = bit(scan)?;
    Ok(beside(scan.alloc(), name, con, bit)?)
}

/// Reads a constraint in which so many forms may stand inside one another, and counts its cells after those that are
/// used before it. `full` says that the limit of constraints leaves none more here.
#[cycle(constraints)]
pub fn constraint(scan: &mut Scan, depth: u32, full: bool, used: &mut u64) -> Result<Con, Stop>
    requires { used.old ≤ CELLS }
    ensures moves { Moves scan.old scan.new }
    ensures gives { Gives (λ con. (con, rest scan.new)) result (constraint_at scan.old.problem depth (record { full = full; cells = used.old }) (rest scan.old)) }
    ensures counts { IfOk result (λ con. used.new ≡ used.old + cell_count con) }
    ensures few { IfOk result (λ con. used.new ≤ CELLS) }
{
    match form(scan, depth, full)? {
        Form::Leaf(name) => counted(scan, name, used),
        Form::Gather(name) => gather(scan, depth - 1, name, used),
        Form::Tie(name) => tie(scan, depth - 1, name, used),
    }
}
