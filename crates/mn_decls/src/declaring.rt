//! The section of variables: declarations and aliases, up to the next head.
ghost use Rattle.std.specs.Prelude.{◌≡◌, ℕ, ◌+◌, ◌*◌, ◌<◌, ◌≤◌, ◌≤ℤ◌, pos, true, false, List, ℤ, [], ◌∷◌, None, Some, Ok, length, drop, is_some, IfOk, IfErr, IfSome, OnOk};
ghost use Rattle.std.proofs.Common.{inl};
ghost use Rattle.std.specs.List.{AllByRecursion};
ghost use Rattle.std.specs.Option.{option_map};
ghost use Rattle.mn_grammar.specs.Gives.{Gives, Stops};
ghost use Rattle.mn_grammar.specs.Lawful.{Lawful};
ghost use Rattle.mn_grammar.specs.Reading.{mark_at, number_at, which_of};
ghost use Rattle.mn_grammar.specs.declared.site.Site.TheVariants.{Fixed, MarksOnly};
ghost use Rattle.mn_lexer.specs.Terminals.{word};
ghost use Rattle.mn_model.specs.Domain.{Ascends, IsDomain, IsValue, stretch};
ghost use Rattle.mn_model.specs.Lawful.{SuitsKind};
ghost use Rattle.mn_model.specs.Name.{IsName};
ghost use Rattle.mn_model.specs.Problem.{Problem, aliased_as, declared_as, size_of_dims, variable_count};
ghost use Rattle.mn_model.specs.declared.limits.TheConstants.{VARIABLES};
ghost use Rattle.mn_model.specs.declared.variable.Kind.TheVariants.{Bounded, Discrete};
ghost use Rattle.mn_cursor.specs.Heads.{head_of};
ghost use Rattle.mn_cursor.specs.Looks.{Sees};
ghost use Rattle.mn_cursor.specs.Lists.{comma_or_at};
ghost use Rattle.mn_cursor.specs.Progress.{rest, Moves, GoesOn};
ghost use Rattle.mn_cursor.specs.Sections.{IsRead, ReadsSection};
ghost use Rattle.mn_decls.specs.Variables.{any_number, declaration_at, domain_at, entries_at, entry_token, entry_words, fair_end, room_for_one, stretch_at, variables_at, variables_spec, which_word};
ghost use Rattle.mn_decls.specs.Words.{word_value, IsTurn};

use crate::aliases::alias;
use crate::dims::dims;
use crate::naming::name;
use crate::parts::parts;
use mn_cursor::{Cursor, Head, Seen, head_of, text_of};
use mn_grammar::{Kind, Limit, Site, Stop};
use mn_lexer::Mark;
use mn_model::{Domain, Instance, Refusal, SPAN, VARIABLES};
use mn_references::{Unfit, kind_of, lesser};

/// What stands where an entry may begin.
#[derive(Clone, Copy, Debug)]
pub enum Word {
    Kind(mn_model::Kind),
    /// `ALIAS`.
    Alias,
    Head(Head),
}

/// The word that an entry begins with.
fn word_of(bytes: &[u8]) -> Option<Word>
    ensures { option_map word_value result ≡ option_map inl (which_of entry_token entry_words (word bytes.now)) }
{
    if bytes == b"BOOL".as_slice() {
        Some(Word::Kind(mn_model::Kind::Binary))
    } else if bytes == b"BOUND".as_slice() {
        Some(Word::Kind(mn_model::Kind::Bounded))
    } else if bytes == b"SPARSEBOUND".as_slice() {
        Some(Word::Kind(mn_model::Kind::Sparse))
    } else if bytes == b"DISCRETE".as_slice() {
        Some(Word::Kind(mn_model::Kind::Discrete))
    } else if bytes == b"ALIAS".as_slice() {
        Some(Word::Alias)
    } else {
        None
    }
}

/// The word that an entry begins with, or the head, at the place.
fn word_or_head(c: &Cursor) -> Result<Word, Stop>
    ensures sees { Sees Fixed which_word word_value (rest c.now) result }
    ensures there { IfOk result (λ _. 0 < c.now.left) }
{
    match c.look() {
        Some(Seen::Word(bytes)) => {
            if let Some(word) = word_of(bytes) {
                return Ok(word);
            }
        }
        Some(Seen::Head(bytes)) => {
            if let Some(head) = head_of(bytes) {
                return Ok(Word::Head(head));
            }
        }
        _ => {}
    }
    Err(c.unwanted(Site::Fixed))
}

/// The condition on a kind's word.
fn room_for_one(inst: &Instance) -> Option<Kind>
    ensures { result ≡ room_for_one inst.now }
{
    if inst.vars() >= VARIABLES {
        Some(Kind::Limit(Limit::Variables))
    } else {
        None
    }
}

/// The condition on the second number of a stretch.
fn fair_end(limited: bool, lo: i64, hi: i64) -> Option<Kind>
    requires lo { IsValue lo }
    requires hi { IsValue hi }
    ensures { result ≡ fair_end limited lo hi }
{
    if hi < lo {
        Some(Kind::EmptyDomain)
    } else if limited && hi - lo + 1 > SPAN as i64 {
        Some(Kind::Limit(Limit::Span))
    } else {
        None
    }
}

/// Reads any number.
#[tactic(auto, using(mn_cursor::proofs::Looking::unseen_stops, mn_cursor::proofs::Looking::seen_stops, mn_cursor::proofs::Looking::seen_reads), unfolding(mn_grammar::specs::Reading::number_at))]
fn any_number(c: &mut Cursor) -> Result<i64, Stop>
    ensures moves { Moves c.old c.new }
    ensures gives { Gives (λ n. (n, rest c.new)) result (number_at any_number (rest c.old)) }
    ensures value { IfOk result IsValue }
{
    let number = c.number()?;
    c.accept(None)?;
    Ok(number)
}

/// Reads the second number of a stretch.
#[tactic(auto, using(mn_cursor::proofs::Looking::unseen_stops, mn_cursor::proofs::Looking::seen_stops, mn_cursor::proofs::Looking::seen_reads), unfolding(mn_grammar::specs::Reading::number_at))]
fn end(c: &mut Cursor, limited: bool, lo: i64) -> Result<i64, Stop>
    requires { IsValue lo }
    ensures moves { Moves c.old c.new }
    ensures gives { Gives (λ n. (n, rest c.new)) result (number_at (fair_end limited lo) (rest c.old)) }
    ensures value { IfOk result IsValue }
    ensures fair { IfOk result (λ n. fair_end limited lo n ≡ None) }
{
    let number = c.number()?;
    c.accept(fair_end(limited, lo, number))?;
    Ok(number)
}

/// Reads the ends of a stretch in their brackets.
fn range(c: &mut Cursor, limited: bool) -> Result<Domain, Stop>
    ensures moves { Moves c.old c.new }
    ensures gives { Gives (λ values. (values, rest c.new)) result (stretch_at limited (rest c.old)) }
    ensures bounded { IfOk result (SuitsKind Bounded) }
    ensures discrete { limited ≡ true → IfOk result (SuitsKind Discrete) }
{
    c.mark(Mark::OpenCurly, None)?;
    let lo = any_number(c)?;
    c.mark(Mark::Dots, None)?;
    let hi = end(c, limited, lo)?;
    c.mark(Mark::CloseCurly, None)?;
    Ok(Domain::stretch(c.alloc(), lo, hi))
}

/// Reads what stands after the dimensions of a declaration.
#[tactic(auto, unfolding(crate::specs::Variables::domain_at))]
fn domain(c: &mut Cursor, kind: mn_model::Kind) -> Result<Domain, Stop>
    ensures moves { Moves c.old c.new }
    ensures gives { Gives (λ values. (values, rest c.new)) result (domain_at kind (rest c.old)) }
    ensures suits { IfOk result (SuitsKind kind) }
{
    match kind {
        mn_model::Kind::Binary => Ok(Domain::stretch(c.alloc(), 0, 1)),
        mn_model::Kind::Bounded => range(c, false),
        mn_model::Kind::Sparse => parts(c),
        mn_model::Kind::Discrete => range(c, true),
    }
}

/// Reads a declaration after its kind's word.
fn declaration(c: &mut Cursor, kind: mn_model::Kind) -> Result<(), Stop>
    requires room { variable_count c.old.problem.decls + 1 ≤ VARIABLES }
    ensures goes_on { GoesOn c.old c.new }
    ensures ok { OnOk result (declaration_at c.old.problem kind (rest c.old) ≡ Ok (c.new.problem, rest c.new)) }
    ensures err { IfErr result (λ e. Stops e (declaration_at c.old.problem kind (rest c.old))) }
{
    let name = name(c)?;
    let dims = dims(c)?;
    let domain = domain(c, kind)?;
    let text = text_of(c.alloc(), name)?;
    c.declare(text, dims, kind, domain)?;
    Ok(())
}

/// Behind an entry there are more, by what the next token breaks, or the section ends.
enum Turn {
    On(Option<Unfit>),
    End,
}

/// Reads an entry, or looks at the head after the last.
fn entry(c: &mut Cursor, behind: Option<Unfit>) -> Result<Turn, Stop>
    ensures goes_on { GoesOn c.old c.new }
    ensures ok { IfOk result (IsTurn c.old.problem behind (rest c.old) c.new) }
    ensures err { IfErr result (λ e. Stops e (entries_at (record { problem = c.old.problem; behind = behind }) (rest c.old))) }
{
    match word_or_head(c)? {
        Word::Kind(kind) => {
            c.accept(lesser(kind_of(behind), room_for_one(c.inst())))?;
            declaration(c, kind)?;
            Ok(Turn::On(None))
        }
        Word::Alias => {
            c.accept(kind_of(behind))?;
            Ok(Turn::On(alias(c)?))
        }
        Word::Head(_) => {
            if let Some(kind) = kind_of(behind) {
                return Err(c.refused(kind));
            }
            Ok(Turn::End)
        }
    }
}

/// Reads entries up to the next head.
fn entries(c: &mut Cursor) -> Result<(), Stop>
    ensures goes_on { GoesOn c.old c.new }
    ensures ok { OnOk result (IsRead c.new (variables_at c.old.problem (rest c.old))) }
    ensures err { IfErr result (λ e. Stops e (variables_at c.old.problem (rest c.old))) }
{
    let mut behind = None;
    loop {
        match entry(c, behind)? {
            Turn::On(next) => behind = next,
            Turn::End => return Ok(()),
        }
    }
}

/// Reads the entries of a section of variables, up to the next head.
pub fn variables(c: &mut Cursor) -> Result<(), Refusal>
    ensures goes_on { GoesOn c.old c.new }
    ensures reads { ReadsSection c.old c.new result (variables_at c.old.problem (rest c.old)) }
{
    match entries(c) {
        Ok(()) => Ok(()),
        Err(stop) => Err(c.refusal(stop)),
    }
}

/// A law: the reader of a section of variables is lawful for the section's language. So it answers exactly what the
/// section's text stands for, and refuses all else at the right token and with the right kind.
pub fn variables_law()
    ensures { (p : Problem) → Lawful (variables_spec p) (variables_at p) }
{}
