//! The section of tuple lists, up to the next head.
ghost use Rattle.std.specs.Prelude.{◌≡◌, ℕ, ◌⊎◌, ◌||◌, ◌+◌, ◌<◌, ◌≤◌, ◌≤ℤ◌, ◌*ℤ◌, pos, true, false, List, ℤ, [], ◌∷◌, None, Some, Ok, length, drop, is_some, IfOk, IfErr, OnOk};
ghost use Rattle.std.specs.List.{AllByRecursion};
ghost use Rattle.std.specs.Str.{bytes_eq};
ghost use Rattle.mn_grammar.specs.Gives.{Gives, Stops};
ghost use Rattle.mn_grammar.specs.Lawful.{Lawful};
ghost use Rattle.mn_grammar.specs.Reading.{go_on, number_at, which_either};
ghost use Rattle.mn_grammar.specs.Tokens.{name_of};
ghost use Rattle.mn_grammar.specs.declared.site.Site.TheVariants.{Mixed};
ghost use Rattle.mn_model.specs.Domain.{IsValue};
ghost use Rattle.mn_model.specs.Lawful.{IsLawful};
ghost use Rattle.mn_model.specs.Name.{IsName};
ghost use Rattle.mn_model.specs.Problem.{Problem, listed_as, cells_of};
ghost use Rattle.mn_model.specs.declared.limits.TheConstants.{CELLS};
ghost use Rattle.mn_cursor.specs.Added.{with_tuples};
ghost use Rattle.mn_cursor.specs.Heads.{head_of};
ghost use Rattle.mn_cursor.specs.Looks.{Sees, first_value, IsFirstName};
ghost use Rattle.mn_cursor.specs.Progress.{rest, Moves, GoesOn};
ghost use Rattle.mn_cursor.specs.Sections.{IsRead, ReadsSection};
ghost use Rattle.mn_decls.specs.TupleLists.{first_at, judge_first, fair_count, fair_number, fair_size, is_past_cells, list_at, lists_at, new_list, numbers_at, tuplelist_at, tuplelist_spec, whole};

use mn_cursor::{Cursor, First, str_of, text_of};
use mn_grammar::{Kind, Limit, Site, Stop};
use mn_model::{CELLS, Instance, Ints, Refusal};

/// Whether the limit of cells is passed with so many more.
fn is_past_cells(inst: &Instance, more: i128) -> bool
    requires { more ≤ℤ pos 1000000000000000000 }
    ensures { result ≡ is_past_cells inst.now more }
{
    i128::from(inst.cells()) + more > i128::from(CELLS)
}

/// The condition on a count of tuples.
fn fair_count(inst: &Instance, count: i64) -> Option<Kind>
    requires { IsValue count }
    ensures { result ≡ fair_count inst.now count }
{
    if count < 0 {
        Some(Kind::Shape)
    } else if is_past_cells(inst, i128::from(count)) {
        Some(Kind::Limit(Limit::Cells))
    } else {
        None
    }
}

/// The condition on a length of tuples.
fn fair_size(inst: &Instance, count: u64, size: i64) -> Option<Kind>
    requires count { count ≤ 1000000000 }
    requires size { IsValue size }
    ensures { result ≡ fair_size inst.now (pos count) size }
{
    if size < 1 {
        Some(Kind::Shape)
    } else if is_past_cells(inst, i128::from(count) * i128::from(size)) {
        Some(Kind::Limit(Limit::Cells))
    } else {
        None
    }
}

/// Reads the count of tuples.
#[tactic(auto, using(mn_cursor::proofs::Looking::unseen_stops, mn_cursor::proofs::Looking::seen_stops, mn_cursor::proofs::Looking::seen_reads), unfolding(mn_grammar::specs::Reading::number_at))]
fn count(c: &mut Cursor) -> Result<u64, Stop>
    ensures moves { Moves c.old c.new }
    ensures gives { Gives (λ n. (pos n, rest c.new)) result (number_at (fair_count c.old.problem) (rest c.old)) }
    ensures value { IfOk result (λ n. n ≤ 1000000000) }
    ensures fair { IfOk result (λ n. fair_count c.old.problem (pos n) ≡ None) }
{
    let count = c.number()?;
    c.accept(fair_count(c.inst(), count))?;
    Ok(count as u64)
}

/// Reads the length of tuples.
#[tactic(auto, using(mn_cursor::proofs::Looking::unseen_stops, mn_cursor::proofs::Looking::seen_stops, mn_cursor::proofs::Looking::seen_reads), unfolding(mn_grammar::specs::Reading::number_at))]
fn size(c: &mut Cursor, count: u64) -> Result<u64, Stop>
    requires { count ≤ 1000000000 }
    ensures moves { Moves c.old c.new }
    ensures gives { Gives (λ n. (pos n, rest c.new)) result (number_at (fair_size c.old.problem (pos count)) (rest c.old)) }
    ensures value { IfOk result (λ n. (1 ≤ n) × (n ≤ 1000000000)) }
    ensures fair { IfOk result (λ n. fair_size c.old.problem (pos count) (pos n) ≡ None) }
{
    let size = c.number()?;
    c.accept(fair_size(c.inst(), count, size))?;
    Ok(size as u64)
}

/// The condition on one more number after others.
fn fair_number(wanted: u64, before: &Ints, number: i64) -> Option<Kind>
    ensures { result ≡ fair_number (pos wanted) before.now number }
{
    if (before.len() as u64) < wanted {
        None
    } else {
        Some(Kind::Shape)
    }
}

/// Reads numbers, of which so many are wanted.
fn numbers(c: &mut Cursor, wanted: u64) -> Result<Ints, Stop>
    ensures moves { Moves c.old c.new }
    ensures gives { Gives (λ l. (l, rest c.new)) result (numbers_at (pos wanted) [] (rest c.old)) }
    ensures values { IfOk result (AllByRecursion IsValue) }
    ensures few { IfOk result (λ l. length l ≤ wanted) }
{
    let mut numbers = Ints::new(c.alloc());
    while let Some(number) = c.next_number() {
        c.accept(fair_number(wanted, &numbers, number))?;
        numbers.push(number)?;
    }
    Ok(numbers)
}

/// Whether a name is that of a tuple list, or of the one that is being read.
fn is_known(inst: &Instance, name: &[u8], other: &[u8]) -> bool
    requires { IsName other.now }
    ensures { result ≡ (is_some (listed_as inst.now.tuples other.now) || bytes_eq other.now name.now) }
{
    is_declared(inst, other) || other == name
}

/// The kind of a refusal of what stands where a number is lacking.
fn lacking_kind(inst: &Instance, name: &[u8], first: First) -> Kind
    requires named { IsName name.now }
    requires first { IsFirstName first }
    ensures { (arity : ℕ) (cells : List ℤ) → judge_first (record { problem = with_tuples inst.now name.now arity cells; lacks = true }) (first_value first.entry) ≡ Some result }
{
    match first {
        First::Name(other) if is_known(inst, name, other) => Kind::Name,
        First::Name(_) => Kind::Shape,
        First::Head(_) => Kind::Shape,
    }
}

/// What stops the reading after a list that lacks numbers.
fn lacking(c: &Cursor, name: &[u8]) -> Stop
    requires { IsName name.now }
    ensures { (arity : ℕ) (cells : List ℤ) → Stops result (first_at (record { problem = with_tuples c.now.problem name.now arity cells; lacks = true }) (rest c.now)) }
{
    match c.first() {
        Err(stop) => stop,
        Ok(first) => c.refused(lacking_kind(c.inst(), name, first)),
    }
}

fn is_declared(inst: &Instance, name: &[u8]) -> bool
    requires { IsName name.now }
    ensures { result ≡ is_some (listed_as inst.now.tuples name.now) }
{
    inst.find_tuples(str_of(name)).is_some()
}

/// The condition on a name that begins a tuple list, after whole ones.
fn new_list(inst: &Instance, name: &[u8]) -> Option<Kind>
    requires { IsName name.now }
    ensures { result ≡ new_list (whole inst.now) name.now }
{
    if is_declared(inst, name) {
        Some(Kind::Name)
    } else {
        None
    }
}

/// Reads a tuple list after its name.
fn list(c: &mut Cursor, name: &[u8]) -> Result<(), Stop>
    requires named { IsName name.now }
    requires unused { listed_as c.old.problem.tuples name.now ≡ None }
    ensures goes_on { GoesOn c.old c.new }
    ensures ok { OnOk result (list_at (whole c.old.problem) name.now (rest c.old) ≡ Ok (whole c.new.problem, rest c.new)) }
    ensures err { IfErr result (λ e. Stops e (go_on (list_at (whole c.old.problem) name.now (rest c.old)) lists_at)) }
{
    let count = count(c)?;
    let size = size(c, count)?;
    let wanted = count * size;
    let numbers = numbers(c, wanted)?;
    if (numbers.len() as u64) < wanted {
        return Err(lacking(c, name));
    }
    let text = text_of(c.alloc(), name)?;
    c.tuples_add(text, size, numbers)?;
    Ok(())
}

/// Reads tuple lists up to the next head.
fn lists(c: &mut Cursor) -> Result<(), Stop>
    ensures goes_on { GoesOn c.old c.new }
    ensures ok { OnOk result (IsRead c.new (tuplelist_at c.old.problem (rest c.old))) }
    ensures err { IfErr result (λ e. Stops e (tuplelist_at c.old.problem (rest c.old))) }
{
    loop {
        let First::Name(name) = c.first()? else {
            return Ok(());
        };
        c.accept(new_list(c.inst(), name))?;
        list(c, name)?;
    }
}

/// Reads the entries of a section of tuple lists, up to the next head.
pub fn tuplelist(c: &mut Cursor) -> Result<(), Refusal>
    ensures goes_on { GoesOn c.old c.new }
    ensures reads { ReadsSection c.old c.new result (tuplelist_at c.old.problem (rest c.old)) }
{
    match lists(c) {
        Ok(()) => Ok(()),
        Err(stop) => Err(c.refusal(stop)),
    }
}

/// A law: the reader of a section of tuple lists is lawful for the section's language. So it answers exactly what the
/// section's text stands for, and refuses all else at the right token and with the right kind.
pub fn tuplelist_law()
    ensures { (p : Problem) → Lawful (tuplelist_spec p) (tuplelist_at p) }
{}
