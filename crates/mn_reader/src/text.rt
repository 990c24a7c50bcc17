//! Whole texts: the first two tokens, then section after section up to the head that ends the text.
ghost use Rattle.std.specs.Prelude.{◌≡◌, ◌⊎◌, ◌<◌, ◌≤◌, codes, length, Some, None, IfErr, IfOk, IsOkAnd, Ok, Err};
ghost use Rattle.mn_grammar.specs.Gives.{Gives, Stops};
ghost use Rattle.mn_grammar.specs.Reading.{word_at};
ghost use Rattle.mn_grammar.specs.declared.site.Site.TheVariants.{Fixed};
ghost use Rattle.mn_model.specs.Problem.{Problem, nothing};
ghost use Rattle.mn_model.specs.declared.refusal.Refusal.TheVariants.{NoMemory};
ghost use Rattle.mn_cursor.specs.Heads.{head_of};
ghost use Rattle.mn_cursor.specs.Looks.{Sees};
ghost use Rattle.mn_cursor.specs.Progress.{rest, Moves, SameText};
ghost use Rattle.mn_language.specs.Texts.{Reads, IsRefused, nothing_stated};
ghost use Rattle.mn_reader.specs.TextProgress.{ReadsEntries, ReadsOn, ReadsWhole, has_entries, stated_of};
ghost use Rattle.mn_language.specs.WholeTexts.{sections_at, text_at, version_at};

use mn_asking::search;
use mn_constraints::constraints;
use mn_decls::{Cursor, Head, Seen, head_of, tuplelist, variables};
use mn_grammar::{Site, Stop};
use mn_lexer::{TEXT_LIMIT, tokens};
use mn_model::{Instance, Refusal, TEXT_BYTES, Which};
use std::alloc::Global;

/// Reads the word that begins a text.
#[tactic(auto, using(mn_cursor::proofs::Looking::unseen_stops), unfolding(mn_grammar::specs::Reading::word_at))]
fn title(c: &mut Cursor) -> Result<(), Stop>
    ensures moves { Moves c.old c.new }
    ensures gives { Gives (λ _. (tt {0}, rest c.new)) result (word_at (codes "MINION") None (rest c.old)) }
{
    match c.look() {
        Some(Seen::Word(bytes)) if bytes == b"MINION".as_slice() => {
            c.step();
            Ok(())
        }
        _ => Err(c.unwanted(Site::Fixed)),
    }
}

/// Reads the version of the language.
#[tactic(auto, unfolding(mn_language::specs::WholeTexts::version_at, mn_grammar::specs::Reading::one_of))]
fn version(c: &mut Cursor) -> Result<(), Stop>
    ensures moves { Moves c.old c.new }
    ensures gives { Gives (λ _. (tt {0}, rest c.new)) result (version_at (rest c.old)) }
{
    match c.look() {
        Some(Seen::Number(3)) => {
            c.step();
            Ok(())
        }
        _ => Err(c.unwanted(Site::Fixed)),
    }
}

/// The head at the place.
fn head(c: &Cursor) -> Result<Head, Stop>
    ensures sees { Sees Fixed head_of (λ h. h) (rest c.now) result }
    ensures there { IfOk result (λ _. 0 < c.now.left) }
{
    if let Some(Seen::Head(bytes)) = c.look() {
        if let Some(head) = head_of(bytes) {
            return Ok(head);
        }
    }
    Err(c.unwanted(Site::Fixed))
}

/// Whether entries may stand after a head.
fn has_entries(head: Head) -> bool
    ensures { result ≡ has_entries head }
{
    match head {
        Head::Variables | Head::TupleList | Head::Search | Head::Constraints => true,
        Head::End => false,
    }
}

/// Reads the entries after a head, up to the head of the next section.
#[tactic(auto, using(crate::proofs::TextSteps::same_text))]
fn entries(c: &mut Cursor, head: Head) -> Result<(), Refusal>
    ensures same { SameText c.old c.new }
    ensures reads { ReadsEntries head c.old c.new result }
{
    match head {
        Head::Variables => variables(c),
        Head::TupleList => tuplelist(c),
        Head::Search => search(c),
        Head::Constraints => constraints(c),
        Head::End => Ok(()),
    }
}

/// Reads a head and its section. False comes after the head that ends the text.
fn section(c: &mut Cursor) -> Result<bool, Refusal>
    ensures same { SameText c.old c.new }
    ensures reads { ReadsOn c.old c.new result }
{
    let head = match head(c) {
        Ok(head) => head,
        Err(stop) => return Err(c.refusal(stop)),
    };
    c.step();
    entries(c, head)?;
    Ok(has_entries(head))
}

/// Reads sections up to the end of the text.
fn sections(c: &mut Cursor) -> Result<(), Refusal>
    ensures same { SameText c.old c.new }
    ensures reads { ReadsWhole c.old c.new result (sections_at (stated_of c.old) (rest c.old)) }
{
    while section(c)? {}
    Ok(())
}

/// Reads the first two tokens of a text.
fn start(c: &mut Cursor) -> Result<(), Stop>
    ensures moves { Moves c.old c.new }
    ensures ok { IfOk result (λ _. text_at (rest c.old) ≡ sections_at nothing_stated (rest c.new)) }
    ensures err { IfErr result (λ e. Stops e (text_at (rest c.old))) }
{
    title(c)?;
    version(c)
}

/// Reads a text, of which nothing is read so far.
fn whole(c: &mut Cursor) -> Result<(), Refusal>
    requires { stated_of c.old ≡ nothing_stated }
    ensures same { SameText c.old c.new }
    ensures reads { ReadsWhole c.old c.new result (text_at (rest c.old)) }
{
    match start(c) {
        Ok(()) => sections(c),
        Err(stop) => Err(c.refusal(stop)),
    }
}

/// The instance that a text of the whole language stands for. It takes one pass over the text, and each name is looked
/// up once.
pub fn read(alloc: Global, text: &[u8]) -> Result<Instance, Refusal>
    // What is read is what the text stands for, and where memory suffices every text of the language is read.
    ensures reads { IfOk result (λ i. Reads text.now i) }
    ensures accepted { (p : Problem) → Reads text.now p → (result ≡ Err NoMemory) ⊎ IsOkAnd result (λ i. i ≡ p) }
    // Every other text is refused, at its place and with its kind.
    ensures refused { IfErr result (λ e. (e ≡ NoMemory) ⊎ IsRefused text.now e) }
    ensures refuses { (e : Refusal) → IsRefused text.now e → (result ≡ Err e) ⊎ (result ≡ Err NoMemory) }
{
    if text.len() > TEXT_LIMIT {
        return Err(Refusal::Limit(Which::Text, TEXT_BYTES));
    }
    let lexed = tokens(alloc, text)?;
    let mut c = Cursor::new(alloc, lexed, text)?;
    whole(&mut c)?;
    Ok(c.finish())
}
