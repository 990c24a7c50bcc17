//! The items on how to search, one after another, up to the next head.
ghost use Rattle.std.specs.Prelude.{◌≡◌, ◌<◌, ◌≤◌, false, true, length, replicate, Ok, Some, IfErr, IfOk, OnOk};
ghost use Rattle.std.specs.Option.{option_map};
ghost use Rattle.mn_grammar.specs.Gives.{Gives, Stops};
ghost use Rattle.mn_grammar.specs.Lawful.{Lawful};
ghost use Rattle.mn_grammar.specs.Reading.{which_of};
ghost use Rattle.mn_grammar.specs.declared.site.Site.TheVariants.{Fixed};
ghost use Rattle.mn_lexer.specs.Terminals.{word};
ghost use Rattle.mn_model.specs.Lawful.{IsKnown, IsLawful, IsLawfulOrder, IsLawfulPrint};
ghost use Rattle.mn_model.specs.Problem.{domains_of};
ghost use Rattle.mn_cursor.specs.Looks.{Sees};
ghost use Rattle.mn_cursor.specs.Progress.{rest, Moves, SameText};
ghost use Rattle.mn_asking.specs.Asking.{asking_behind, asking_of, goal_at, start_value, word_seen, IsAsked, ReadsAsking};
ghost use Rattle.mn_asking.specs.Search.{Asking, goal_word, item_token, may_stand, prints, says_order, says_values, section_spec};
ghost use Rattle.mn_asking.specs.Searching.{item_rest, item_words, search_at, which_item};

use crate::directions::val_order;
use crate::ordering::var_order;
use crate::printing::print;
use mn_cursor::{Asked, Cursor, Head, Seen, head_of};
use mn_grammar::{Kind, Site, Stop};
use mn_model::{Flags, Goal, Order, Print, Refusal, VarId};
use mn_references::{Aimed, Scan, Unfit, kind_of, lesser, reference_at};
use std::alloc::{AllocError, Global};

/// The words that items begin with.
#[derive(Clone, Copy, Debug)]
pub enum ItemWord {
    Order,
    Values,
    Maximise,
    Minimise,
    Print,
}

/// What stands where an item may begin.
#[derive(Clone, Copy, Debug)]
pub enum ItemStart {
    Word(ItemWord),
    Head(Head),
}

fn word_of(bytes: &[u8]) -> Option<ItemWord>
    ensures { option_map word_seen result ≡ which_of item_token item_words (word bytes.now) }
{
    if bytes == b"VARORDER".as_slice() {
        Some(ItemWord::Order)
    } else if bytes == b"VALORDER".as_slice() {
        Some(ItemWord::Values)
    } else if bytes == b"MAXIMISING".as_slice() {
        Some(ItemWord::Maximise)
    } else if bytes == b"MINIMISING".as_slice() {
        Some(ItemWord::Minimise)
    } else if bytes == b"PRINT".as_slice() {
        Some(ItemWord::Print)
    } else {
        None
    }
}

// The word of an item, or the head, at the place.
fn sees_item(c: &Cursor) -> Result<ItemStart, Stop>
    ensures sees { Sees Fixed which_item start_value (rest c.now) result }
    ensures there { IfOk result (λ _. 0 < c.now.left) }
{
    match c.look() {
        Some(Seen::Word(bytes)) => {
            if let Some(word) = word_of(bytes) {
                return Ok(ItemStart::Word(word));
            }
        }
        Some(Seen::Head(bytes)) => {
            if let Some(head) = head_of(bytes) {
                return Ok(ItemStart::Head(head));
            }
        }
        _ => {}
    }
    Err(c.unwanted(Site::Fixed))
}

// What the word of an item breaks, where this was asked before.
fn may_stand(asked: Asked, word: ItemWord) -> Option<Kind>
    ensures { result ≡ may_stand asked (word_seen word) }
{
    let (broken, kind) = match word {
        ItemWord::Order => (asked.order, Kind::Again),
        ItemWord::Values => (asked.values || !asked.order, Kind::Shape),
        ItemWord::Maximise | ItemWord::Minimise => (asked.goal, Kind::Shape),
        ItemWord::Print => (asked.print, Kind::Shape),
    };
    if broken { Some(kind) } else { None }
}

// Directions of so many variables, of which no greatest value is tried first.
fn none_down(alloc: Global, count: usize) -> Result<Flags, AllocError>
    ensures { IfOk result (λ down. down ≡ replicate count false) }
{
    let mut down = Vec::new(alloc);
    down.resize(count, false)?;
    Ok(Flags::of(down))
}

// Says what VARORDER says, and goes on to where so many tokens are left.
fn say_order(c: &mut Cursor, left: usize, order: Order)
    requires within { left ≤ length c.old.tokens }
    requires lawful { IsLawfulOrder (domains_of c.old.problem.decls) order }
    ensures { c.new ≡ record c.old { left = left; problem = record c.old.problem { order = order }; asked = record c.old.asked { order = true } } }
{
    let asked = c.asked();
    c.go_to(left);
    c.set_order(order);
    c.set_asked(Asked {
        order: true,
        values: asked.values,
        goal: asked.goal,
        print: asked.print,
    });
}

// Says what VALORDER says, and goes on to where so many tokens are left.
fn say_values(c: &mut Cursor, left: usize, order: Order)
    requires within { left ≤ length c.old.tokens }
    requires lawful { IsLawfulOrder (domains_of c.old.problem.decls) order }
    ensures { c.new ≡ record c.old { left = left; problem = record c.old.problem { order = order }; asked = record c.old.asked { values = true } } }
{
    let asked = c.asked();
    c.go_to(left);
    c.set_order(order);
    c.set_asked(Asked {
        order: asked.order,
        values: true,
        goal: asked.goal,
        print: asked.print,
    });
}

// Says what is to be made large or small, and goes on to where so many tokens are left.
fn say_goal(c: &mut Cursor, left: usize, goal: Goal)
    requires within { left ≤ length c.old.tokens }
    requires known { IsKnown (domains_of c.old.problem.decls) goal.var }
    ensures { c.new ≡ record c.old { left = left; problem = record c.old.problem { goal = Some goal }; asked = record c.old.asked { goal = true } } }
{
    let asked = c.asked();
    c.go_to(left);
    c.set_goal(goal);
    c.set_asked(Asked {
        order: asked.order,
        values: asked.values,
        goal: true,
        print: asked.print,
    });
}

// Says what is to be printed, and goes on to where so many tokens are left.
fn say_print(c: &mut Cursor, left: usize, print: Print)
    requires within { left ≤ length c.old.tokens }
    requires lawful { IsLawfulPrint (domains_of c.old.problem.decls) print }
    ensures { c.new ≡ record c.old { left = left; problem = record c.old.problem { print = print }; asked = record c.old.asked { print = true } } }
{
    let asked = c.asked();
    c.go_to(left);
    c.set_print(print);
    c.set_asked(Asked {
        order: asked.order,
        values: asked.values,
        goal: asked.goal,
        print: true,
    });
}

// Reads what stands after VARORDER.
fn order_item(c: &mut Cursor) -> Result<(), Stop>
    ensures same { SameText c.old c.new }
    ensures ok { OnOk result (item_rest (asking_of c.old) says_order (rest c.old) ≡ Ok (asking_of c.new, rest c.new)) }
    ensures err { IfErr result (λ e. Stops e (item_rest (asking_of c.old) says_order (rest c.old))) }
{
    c.inst().lawful();
    let mut scan = Scan::new(c);
    let vars = var_order(&mut scan)?;
    let left = scan.left();
    let down = none_down(c.alloc(), vars.len())?;
    say_order(c, left, Order { vars, down });
    Ok(())
}

// Reads what stands after VALORDER.
fn values_item(c: &mut Cursor) -> Result<(), Stop>
    ensures same { SameText c.old c.new }
    ensures ok { OnOk result (item_rest (asking_of c.old) says_values (rest c.old) ≡ Ok (asking_of c.new, rest c.new)) }
    ensures err { IfErr result (λ e. Stops e (item_rest (asking_of c.old) says_values (rest c.old))) }
{
    c.inst().lawful();
    let wanted = c.inst().order().vars.len();
    let mut scan = Scan::new(c);
    let down = val_order(&mut scan, wanted)?;
    let left = scan.left();
    let vars = c.inst().order().vars.copy()?;
    say_values(c, left, Order { vars, down });
    Ok(())
}

// Reads the reference of an objective. Answers its variable, and what the token after it breaks.
fn goal_reference(scan: &mut Scan) -> Result<(VarId, Option<Unfit>), Stop>
    requires { IsLawful scan.old.problem }
    ensures moves { Moves scan.old scan.new }
    ensures gives { Gives (λ r. (r, rest scan.new)) result (goal_at scan.old.problem (rest scan.old)) }
    ensures known { IfOk result (λ r. IsKnown (domains_of scan.old.problem.decls) r.0) }
{
    let reference = reference_at(scan, Aimed::One(false))?;
    Ok((*reference.vars.get(0), reference.behind))
}

// Reads what stands after MAXIMISING or MINIMISING. Answers what the token after it breaks, where that is its end.
fn goal_item(c: &mut Cursor, maximise: bool) -> Result<Option<Unfit>, Stop>
    ensures same { SameText c.old c.new }
    ensures ok { IfOk result (λ b. item_rest (asking_of c.old) (goal_word maximise) (rest c.old) ≡ Ok (asking_behind c.new b, rest c.new)) }
    ensures err { IfErr result (λ e. Stops e (item_rest (asking_of c.old) (goal_word maximise) (rest c.old))) }
{
    c.inst().lawful();
    let mut scan = Scan::new(c);
    let (var, behind) = goal_reference(&mut scan)?;
    let left = scan.left();
    say_goal(c, left, Goal { var, maximise });
    Ok(behind)
}

// Reads what stands after PRINT.
fn print_item(c: &mut Cursor) -> Result<(), Stop>
    ensures same { SameText c.old c.new }
    ensures ok { OnOk result (item_rest (asking_of c.old) prints (rest c.old) ≡ Ok (asking_of c.new, rest c.new)) }
    ensures err { IfErr result (λ e. Stops e (item_rest (asking_of c.old) prints (rest c.old))) }
{
    c.lawful();
    c.inst().lawful();
    let mut scan = Scan::new(c);
    let what = print(&mut scan)?;
    let left = scan.left();
    say_print(c, left, what);
    Ok(())
}

// Reads an item after its word. Answers what the token after it breaks, where that is its end.
fn item(c: &mut Cursor, word: ItemWord) -> Result<Option<Unfit>, Stop>
    ensures same { SameText c.old c.new }
    ensures ok { IfOk result (λ b. item_rest (asking_of c.old) (word_seen word) (rest c.old) ≡ Ok (asking_behind c.new b, rest c.new)) }
    ensures err { IfErr result (λ e. Stops e (item_rest (asking_of c.old) (word_seen word) (rest c.old))) }
{
    match word {
        ItemWord::Order => order_item(c)?,
        ItemWord::Values => values_item(c)?,
        ItemWord::Maximise => return goal_item(c, true),
        ItemWord::Minimise => return goal_item(c, false),
        ItemWord::Print => print_item(c)?,
    }
    Ok(None)
}

// Reads items up to the next head.
fn items(c: &mut Cursor) -> Result<(), Stop>
    ensures same { SameText c.old c.new }
    ensures ok { OnOk result (IsAsked c.new (search_at (asking_of c.old) (rest c.old))) }
    ensures err { IfErr result (λ e. Stops e (search_at (asking_of c.old) (rest c.old))) }
{
    let mut behind = None;
    loop {
        let ItemStart::Word(word) = sees_item(c)? else {
            return match kind_of(behind) {
                Some(kind) => Err(c.refused(kind)),
                None => Ok(()),
            };
        };
        c.accept(lesser(kind_of(behind), may_stand(c.asked(), word)))?;
        behind = item(c, word)?;
    }
}

/// Reads the entries of a section that says how to search, up to the next head.
pub fn search(c: &mut Cursor) -> Result<(), Refusal>
    ensures same { SameText c.old c.new }
    ensures reads { ReadsAsking c.old c.new result (search_at (asking_of c.old) (rest c.old)) }
{
    match items(c) {
        Ok(()) => Ok(()),
        Err(stop) => Err(c.refusal(stop)),
    }
}

/// A law: the reader of a section that says how to search is lawful for the section's language. So it answers exactly
/// what the section's text stands for, and refuses all else at the right token and with the right kind.
pub fn search_law()
    ensures { (s : Asking) → Lawful (section_spec s) (search_at s) }
{}
