//! References: a name with its indices, or without.
ghost use Rattle.std.specs.Prelude.{◌≡◌, ◌<◌, ◌≤◌, Some, true, drop, length, map, IfOk, IsTrue};
ghost use Rattle.std.specs.List.{AllByRecursion, range_with_len};
ghost use Rattle.mn_grammar.specs.Gives.{Gives};
ghost use Rattle.mn_grammar.specs.Lists.{turn_at};
ghost use Rattle.mn_lexer.specs.declared.marks.Mark.TheVariants.{CloseSquare};
ghost use Rattle.mn_model.specs.declared.limits.TheConstants.{VARIABLES};
ghost use Rattle.mn_model.specs.Variable.{number_of};
ghost use Rattle.mn_references.specs.Aims.{aim_seen, AreDeclared};
ghost use Rattle.mn_references.specs.Conditions.{as_kind};
ghost use Rattle.mn_references.specs.Lookups.{at_source, behind_index, ends_within, found_seen, found_within, lead_seen, subs_turn, within_seen, IsFilled, IsInside, IsLookup, IsOn};
ghost use Rattle.mn_cursor.specs.Progress.{rest, Moves};
ghost use Rattle.mn_references.specs.References.{at_name, found_at, found_bare, is_last, is_single, sub_ends};
ghost use Rattle.mn_grammar.specs.Reading.{judged};
ghost use Rattle.mn_references.specs.Referring.{behind_name, ref_at, sub_at, subs_at};

use crate::aims::Aimed;
use crate::indices::Indices;
use crate::lookup::{Lookup, look_up};
use crate::scan::Scan;
use crate::want::Unfit;
use mn_grammar::{Kind, Limit, Stop};
use mn_lexer::Mark;
use mn_model::{Instance, VarId, VarIds};
use std::alloc::{AllocError, Global};

/// What a reference stands for.
#[derive(Debug, Drop)]
pub struct Reference<'c> {
    /// The variables that it names, the last index running fastest.
    pub vars: VarIds,
    /// The dimensions of a whole matrix that is named without indices.
    pub dims: &'c [u32],
    /// What the token after it breaks, where that is its end.
    pub behind: Option<Unfit>,
}

/// Behind an index there are more, or the reference is whole.
#[derive(Drop)]
pub enum Step<'c> {
    On(Indices<'c>),
    Done(Reference<'c>),
}

/// The kind of what the end of a reference breaks.
pub fn kind_of(broken: Option<Unfit>) -> Option<Kind>
    ensures { result ≡ as_kind broken }
{
    match broken? {
        Unfit::Form => Some(Kind::Shape),
        Unfit::Length => Some(Kind::Limit(Limit::Vector)),
    }
}

// The variables at these places.
fn variables_at(alloc: Global, lookup: &Lookup, places: &[usize]) -> Result<VarIds, AllocError>
    requires filled { IsFilled lookup.now.source lookup.now.size }
    requires within { AllByRecursion (λ place. place < lookup.now.size) places.now }
    requires declared { AllByRecursion (λ place. number_of (at_source lookup.now.source place) ≤ VARIABLES) places.now }
    ensures { IfOk result (λ vars. vars ≡ map (at_source lookup.now.source) places.now) }
{
    let mut vars = VarIds::new(alloc);
    let mut left = places;
    while let [place, rest @ ..] = left {
        vars.push(lookup.at(*place))?;
        left = rest;
    }
    Ok(vars)
}

// Whether there is no dimension after the first.
fn is_last(dims: &[u32]) -> bool
    ensures { result ≡ is_last dims.now }
{
    match dims {
        [] | [_] => true,
        [_, _, ..] => false,
    }
}

// Reads the `]` after the indices of a reference, which is its end.
fn close<'c>(
    scan: &mut Scan<'c, '_>,
    lookup: &Lookup<'c>,
    aim: Aimed,
    next: Indices<'c>,
) -> Result<Reference<'c>, Stop>
    requires there { 0 < scan.old.left }
    requires fits { IsLookup scan.old.problem lookup.now }
    requires inside { IsInside next }
    requires size { next.size ≡ lookup.now.size }
    requires whole { is_single next.dims.now ≡ true }
    ensures moves { Moves scan.old scan.new }
    ensures found { IfOk result (λ r. found_seen r ≡ found_within (lead_seen lookup.now) (within_seen next.entry)) }
    ensures less { IfOk result (λ _. scan.new.left < scan.old.left) }
    ensures gives { Gives (λ _. (tt {0}, rest scan.new)) result (judged (ends_within (aim_seen scan.old.problem aim) (lead_seen lookup.now) (within_seen next.entry)) (tt {0}) (rest scan.old) (drop 1 (rest scan.old))) }
{
    let vars = variables_at(scan.alloc(), lookup, next.places.as_slice())?;
    let broken = aim.ends(scan.inst(), next.full, vars.as_slice());
    scan.accept(kind_of(broken))?;
    Ok(Reference {
        vars,
        dims: &[],
        behind: None,
    })
}

// What stands after an index.
#[tactic(auto, using(crate::proofs::Ending::end_stops, crate::proofs::Ending::comma_stops, crate::proofs::Ending::comma_reads, crate::proofs::Ending::close_stops, crate::proofs::Ending::close_reads), unfolding(crate::specs::Lookups::behind_index))]
fn behind_index<'c>(
    scan: &mut Scan<'c, '_>,
    lookup: &Lookup<'c>,
    aim: Aimed,
    last: bool,
    next: Indices<'c>,
) -> Result<Step<'c>, Stop>
    requires fits { IsLookup scan.old.problem lookup.now }
    requires inside { IsInside next }
    requires size { next.size ≡ lookup.now.size }
    requires whole { IsTrue last → is_single next.dims.now ≡ true }
    ensures moves { Moves scan.old scan.new }
    ensures gives { Gives (λ s. (subs_turn s, rest scan.new)) result (behind_index (aim_seen scan.old.problem aim) (lead_seen lookup.now) last (within_seen next.entry) (rest scan.old)) }
    ensures on { IfOk result (IsOn lookup.now.size) }
    ensures less { IfOk result (λ _. scan.new.left < scan.old.left) }
{
    if scan.sees_end(Mark::CloseSquare)? {
        scan.accept(if last { Some(Kind::Shape) } else { None })?;
        return Ok(Step::On(next));
    }
    if !last {
        return Err(scan.refused(Kind::Shape));
    }
    let reference = close(scan, lookup, aim, next)?;
    Ok(Step::Done(reference))
}

// One index, and what stands after it.
#[tactic(auto, using(mn_cursor::proofs::Turning::stops_first, mn_cursor::proofs::Turning::stops_second), unfolding(crate::specs::Referring::sub_at))]
fn turn<'c>(
    scan: &mut Scan<'c, '_>,
    lookup: &Lookup<'c>,
    aim: Aimed,
    indices: Indices<'c>,
) -> Result<Step<'c>, Stop>
    requires fits { IsLookup scan.old.problem lookup.now }
    requires inside { IsInside indices }
    requires size { indices.size ≡ lookup.now.size }
    ensures moves { Moves scan.old scan.new }
    ensures gives { Gives (λ s. (subs_turn s, rest scan.new)) result (turn_at CloseSquare (sub_ends (aim_seen scan.old.problem aim) (lead_seen lookup.now)) (found_at (lead_seen lookup.now)) (sub_at (aim_seen scan.old.problem aim)) (within_seen indices.entry) (rest scan.old)) }
    ensures on { IfOk result (IsOn lookup.now.size) }
    ensures less { IfOk result (λ _. scan.new.left < scan.old.left) }
{
    let last = is_last(indices.dims);
    let index = scan.index(aim.slices(), indices.dims)?;
    let next = indices.entered(index)?;
    behind_index(scan, lookup, aim, last, next)
}

// The indices of a reference, after the `[`.
fn indices<'c>(
    scan: &mut Scan<'c, '_>,
    lookup: &Lookup<'c>,
    aim: Aimed,
) -> Result<Reference<'c>, Stop>
    requires fits { IsLookup scan.old.problem lookup.now }
    ensures moves { Moves scan.old scan.new }
    ensures gives { Gives (λ r. (found_seen r, rest scan.new)) result (subs_at (aim_seen scan.old.problem aim) (lead_seen lookup.now) (rest scan.old)) }
{
    let mut indices = Indices::start(scan.alloc(), lookup)?;
    loop {
        match turn(scan, lookup, aim, indices)? {
            Step::On(next) => indices = next,
            Step::Done(reference) => return Ok(reference),
        }
    }
}

// All variables of a name.
fn all_of(alloc: Global, lookup: &Lookup) -> Result<VarIds, AllocError>
    requires filled { IsFilled lookup.now.source lookup.now.size }
    requires declared { (place : _) → place < lookup.now.size → number_of (at_source lookup.now.source place) ≤ VARIABLES }
    ensures { IfOk result (λ vars. vars ≡ map (at_source lookup.now.source) (range_with_len 0 lookup.now.size)) }
{
    let mut vars = VarIds::new(alloc);
    for place in 0..lookup.size {
        vars.push(lookup.at(place))?;
    }
    Ok(vars)
}

// Whether a name without dimensions is meant.
fn is_single(dims: &[u32]) -> bool
    ensures { result ≡ is_single dims.now }
{
    dims.is_empty()
}

// What a name without indices stands for.
fn bare<'c>(
    alloc: Global,
    inst: &Instance,
    lookup: &Lookup<'c>,
    aim: Aimed,
) -> Result<Reference<'c>, AllocError>
    requires { IsLookup inst.now lookup.now }
    ensures { IfOk result (λ r. found_seen r ≡ found_bare (aim_seen inst.now aim) (lead_seen lookup.now)) }
{
    let vars = all_of(alloc, lookup)?;
    let behind = if is_single(lookup.dims) {
        None
    } else {
        aim.ends(inst, false, vars.as_slice())
    };
    Ok(Reference {
        vars,
        dims: lookup.dims,
        behind,
    })
}

/// What stands after a name.
#[tactic(auto, using(crate::proofs::Stepping::opens_then, crate::proofs::Stepping::opens_not))]
pub fn behind_name<'c>(
    scan: &mut Scan<'c, '_>,
    lookup: &Lookup<'c>,
    aim: Aimed,
) -> Result<Reference<'c>, Stop>
    requires fits { IsLookup scan.old.problem lookup.now }
    ensures moves { Moves scan.old scan.new }
    ensures gives { Gives (λ r. (found_seen r, rest scan.new)) result (behind_name (aim_seen scan.old.problem aim) (lead_seen lookup.now) (rest scan.old)) }
{
    if !scan.is_mark(Mark::OpenSquare) {
        return Ok(bare(scan.alloc(), scan.inst(), lookup, aim)?);
    }
    let broken = if is_single(lookup.dims) {
        Some(Kind::Shape)
    } else {
        None
    };
    scan.mark(Mark::OpenSquare, broken)?;
    indices(scan, lookup, aim)
}

/// What a name breaks that leads so far.
pub fn name_kind(inst: &Instance, lookup: &Lookup, aim: Aimed) -> Option<Kind>
    requires { IsLookup inst.now lookup.now }
    ensures { result ≡ at_name (aim_seen inst.now aim) (Some (lead_seen lookup.now)) }
{
    if !is_single(lookup.dims) {
        return None;
    }
    let vars = [lookup.at(0)];
    kind_of(aim.ends(inst, true, &vars))
}

/// Reads a reference.
#[tactic(auto, using(mn_cursor::proofs::Turning::stops_first, mn_cursor::proofs::Turning::stops_second), unfolding(crate::specs::Referring::ref_at))]
pub fn reference_at<'c>(scan: &mut Scan<'c, '_>, aim: Aimed) -> Result<Reference<'c>, Stop>
    ensures moves { Moves scan.old scan.new }
    ensures gives { Gives (λ r. (found_seen r, rest scan.new)) result (ref_at scan.old.problem (aim_seen scan.old.problem aim) (rest scan.old)) }
{
    let name = scan.name()?;
    let Some(lookup) = look_up(scan.inst(), name) else {
        return Err(scan.refused(Kind::Name));
    };
    scan.accept(name_kind(scan.inst(), &lookup, aim))?;
    behind_name(scan, &lookup, aim)
}
