//! The nested brackets of an alias with dimensions, read in a loop.
ghost use Rattle.std.specs.Prelude.{◌≡◌, ◌<◌, ◌≤◌, ◌∷◌, ◌++◌, [], true, leb, length, None, Ok, Some, IfErr, IfOk, OnOk};
ghost use Rattle.mn_grammar.specs.Gives.{Gives, Stops};
ghost use Rattle.mn_grammar.specs.Places.{when};
ghost use Rattle.mn_grammar.specs.Reading.{mark_at};
ghost use Rattle.mn_grammar.specs.declared.Kind.TheVariants.{Shape};
ghost use Rattle.mn_grammar.specs.declared.site.Site.TheVariants.{MarksOnly};
ghost use Rattle.mn_lexer.specs.declared.marks.Mark.TheVariants.{OpenSquare};
ghost use Rattle.mn_model.specs.Name.{IsName};
ghost use Rattle.mn_cursor.specs.Progress.{rest, Moves};
ghost use Rattle.mn_decls.specs.Aliases.{at_var, nest_at, Led};
ghost use Rattle.mn_decls.specs.Brackets.{before_entry, behind_entry, ended, entry_end, led_by, AreOf, IsOn};

use crate::naming::{Named, is_known, one_name};
use mn_cursor::Cursor;
use mn_grammar::{Kind, Stop};
use mn_lexer::Mark;
use mn_model::{Instance, NoMemory, VarId, VarIds};
use mn_references::{Unfit, kind_of, lesser};
use std::alloc::Global;

/// How far the brackets of an alias are read.
#[derive(Drop)]
pub struct Brackets<'d> {
    /// The dimensions of the alias.
    pub dims: &'d [u32],
    /// How many entries each open bracket wants from the one on that is read, the outermost first.
    pub wanted: Vec<u32>,
    /// The variables so far.
    pub vars: VarIds,
}

/// The condition that a test breaks.
fn shape_if(broken: bool) -> Option<Kind>
    ensures { result ≡ when broken Shape }
{
    if broken { Some(Kind::Shape) } else { None }
}

/// Reads the mark after an entry of a bracket that wants so many from that one on. Answers whether it is `,`.
fn entry_end(c: &mut Cursor, wanted: u32, behind: Option<Unfit>) -> Result<bool, Stop>
    ensures moves { Moves c.old c.new }
    ensures gives { (v : Led) → v.behind ≡ behind → Gives (λ more. (ended wanted v more, rest c.new)) result (entry_end wanted v (rest c.old)) }
    ensures more { IfOk result (λ more. more ≡ true → 1 < wanted) }
    ensures less { IfOk result (λ _. length (rest c.new) < length (rest c.old)) }
{
    let unfit = kind_of(behind);
    if c.is_mark(Mark::Comma) {
        c.mark(Mark::Comma, lesser(unfit, shape_if(wanted <= 1)))?;
        Ok(true)
    } else {
        c.mark(Mark::CloseSquare, lesser(unfit, shape_if(1 < wanted)))?;
        Ok(false)
    }
}

/// What a name breaks where `[` is wanted.
fn misplaced(inst: &Instance, name: &[u8]) -> Kind
    requires { IsName name.now }
    ensures { (dim : _) (dims : _) → at_var inst.now (dim ∷ dims) name.now ≡ Some result }
{
    if is_known(inst, name) {
        Kind::Shape
    } else {
        Kind::Name
    }
}

/// Reads the `[` of an entry where one is wanted.
fn bracket(c: &mut Cursor) -> Result<(), Stop>
    ensures moves { Moves c.old c.new }
    ensures ok { OnOk result (mark_at MarksOnly OpenSquare None (rest c.old) ≡ Ok (tt {0}, rest c.new)) }
    ensures err { IfErr result (λ e. (dim : _) (dims : _) (vars : _) → Stops e (nest_at c.old.problem (dim ∷ dims) vars (rest c.old))) }
{
    if c.is_mark(Mark::OpenSquare) {
        return c.mark(Mark::OpenSquare, None);
    }
    let name = c.name()?;
    Err(c.refused(misplaced(c.inst(), name)))
}

/// Reads an entry where a variable is wanted.
fn variable(c: &mut Cursor) -> Result<Named, Stop>
    ensures moves { Moves c.old c.new }
    ensures ok { IfOk result (λ n. (vars : _) → nest_at c.old.problem [] vars (rest c.old) ≡ Ok (led_by vars n, rest c.new)) }
    ensures err { IfErr result (λ e. (vars : _) → Stops e (nest_at c.old.problem [] vars (rest c.old))) }
    ensures less { IfOk result (λ _. length (rest c.new) < length (rest c.old)) }
{
    if c.is_mark(Mark::OpenSquare) {
        return Err(c.refused(Kind::Shape));
    }
    one_name(c)
}

/// Adds variables after others.
fn push_vars(out: &mut VarIds, vars: &[VarId]) -> Result<(), NoMemory>
    ensures { OnOk result (out.new ≡ out.old ++ vars.now) }
{
    let mut left = vars;
    while let [v, rest @ ..] = left {
        out.push(*v)?;
        left = rest;
    }
    Ok(())
}

impl<'d> Brackets<'d> {
    /// None is open yet.
    pub fn new(alloc: Global, dims: &'d [u32]) -> Brackets<'d>
        ensures dims { result.dims.now ≡ dims.now }
        ensures wanted { result.wanted.items ≡ [] }
        ensures vars { result.vars ≡ [] }
    {
        Brackets {
            dims,
            wanted: Vec::new(alloc),
            vars: VarIds::new(alloc),
        }
    }

    /// Whether a variable is wanted next, and no `[`.
    pub fn want_variable(&self) -> bool
        ensures { result ≡ leb (length self.now.dims.now) (length self.now.wanted.items) }
    {
        self.wanted.len() >= self.dims.len()
    }

    /// Reads the `[` of an entry.
    pub fn open(&mut self, c: &mut Cursor) -> Result<(), Stop>
        requires depth { length self.old.wanted.items < length self.old.dims.now }
        ensures moves { Moves c.old c.new }
        ensures kept { OnOk result (AreOf self.old.dims.now self.new) }
        ensures ok { OnOk result (before_entry c.old.problem self.new (rest c.new) ≡ before_entry c.old.problem self.old (rest c.old)) }
        ensures err { IfErr result (λ e. Stops e (before_entry c.old.problem self.old (rest c.old))) }
        ensures less { OnOk result (length (rest c.new) < length (rest c.old)) }
    {
        bracket(c)?;
        let dim = self.dims[self.wanted.len()];
        self.wanted.push(dim)?;
        Ok(())
    }

    /// Reads an entry that is a variable. Answers what the token after it breaks.
    pub fn name(&mut self, c: &mut Cursor) -> Result<Option<Unfit>, Stop>
        requires depth { length self.old.dims.now ≤ length self.old.wanted.items }
        ensures moves { Moves c.old c.new }
        ensures same { self.new.dims.now ≡ self.old.dims.now }
        ensures wanted { self.new.wanted.items ≡ self.old.wanted.items }
        ensures ok { IfOk result (λ behind. behind_entry c.old.problem self.new behind (rest c.new) ≡ before_entry c.old.problem self.old (rest c.old)) }
        ensures err { IfErr result (λ e. Stops e (before_entry c.old.problem self.old (rest c.old))) }
        ensures less { IfOk result (λ _. length (rest c.new) < length (rest c.old)) }
    {
        let named = variable(c)?;
        push_vars(&mut self.vars, named.vars.as_slice())?;
        Ok(named.behind)
    }

    /// Reads the marks after an entry, up to a `,` with which a bracket goes on. Answers whether there is one; else all
    /// brackets are closed.
    pub fn close(&mut self, c: &mut Cursor, behind: Option<Unfit>) -> Result<bool, Stop>
        requires few { length self.old.wanted.items ≤ length self.old.dims.now }
        ensures moves { Moves c.old c.new }
        ensures kept { AreOf self.old.dims.now self.new }
        ensures ok { IfOk result (λ more. IsOn more c.old.problem self.new (rest c.new) (behind_entry c.old.problem self.old behind (rest c.old))) }
        ensures err { IfErr result (λ e. Stops e (behind_entry c.old.problem self.old behind (rest c.old))) }
        ensures less { IfOk result (λ _. length (rest c.new) ≤ length (rest c.old)) }
    {
        let mut unfit = behind;
        while let Some(wanted) = self.wanted.pop() {
            if entry_end(c, wanted, unfit)? {
                self.wanted.push(wanted - 1)?;
                return Ok(true);
            }
            unfit = None;
        }
        Ok(false)
    }

    /// The variables.
    pub fn into_vars(self) -> VarIds
        ensures { result ≡ self.entry.vars }
    {
        self.vars
    }
}
