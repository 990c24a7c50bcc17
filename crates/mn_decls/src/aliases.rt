//! Aliases: further names of variables and of matrices of them.
ghost use Rattle.std.specs.Prelude.{◌≡◌, ◌≤◌, [], length, None, Ok, IfErr, IfOk, OnOk};
ghost use Rattle.std.specs.List.{AllByRecursion};
ghost use Rattle.mn_grammar.specs.Gives.{Stops};
ghost use Rattle.mn_model.specs.Name.{IsName};
ghost use Rattle.mn_cursor.specs.Progress.{rest, GoesOn, Moves};
ghost use Rattle.mn_decls.specs.Aliases.{nest_at};
ghost use Rattle.mn_decls.specs.Brackets.{IsLed};
ghost use Rattle.mn_decls.specs.Variables.{alias_at, matrix_at, new_name, so_far, var_at};

use crate::alias_dims::alias_dims;
use crate::brackets::Brackets;
use crate::naming::{name, one_name};
use mn_cursor::{Cursor, text_of};
use mn_grammar::Stop;
use mn_lexer::Mark;
use mn_model::{Dims, VarIds};
use mn_references::Unfit;

/// Reads the brackets after `=`, by the dimensions of an alias.
fn nest(c: &mut Cursor, dims: &[u32]) -> Result<VarIds, Stop>
    ensures moves { Moves c.old c.new }
    ensures ok { IfOk result (λ vars. IsLed vars (rest c.new) (nest_at c.old.problem dims.now [] (rest c.old))) }
    ensures err { IfErr result (λ e. Stops e (nest_at c.old.problem dims.now [] (rest c.old))) }
{
    let mut brackets = Brackets::new(c.alloc(), dims);
    loop {
        if brackets.want_variable() {
            let behind = brackets.name(c)?;
            let more = brackets.close(c, behind)?;
            if !more {
                return Ok(brackets.into_vars());
            }
        } else {
            brackets.open(c)?;
        }
    }
}

/// Reads what an alias with dimensions leads to, after the mark that opens them.
fn matrix(c: &mut Cursor, name: &[u8]) -> Result<(), Stop>
    requires named { IsName name.now }
    requires fresh { new_name c.old.problem name.now ≡ None }
    ensures goes_on { GoesOn c.old c.new }
    ensures ok { OnOk result (matrix_at c.old.problem name.now (rest c.old) ≡ Ok (so_far c.new.problem, rest c.new)) }
    ensures err { IfErr result (λ e. Stops e (matrix_at c.old.problem name.now (rest c.old))) }
{
    c.inst().lawful();
    let dims = alias_dims(c)?;
    c.mark(Mark::Equals, None)?;
    let vars = nest(c, dims.as_slice())?;
    let text = text_of(c.alloc(), name)?;
    c.alias(text, dims, vars)?;
    Ok(())
}

/// Reads what an alias without dimensions leads to. Answers what the token after it breaks.
fn one(c: &mut Cursor, name: &[u8]) -> Result<Option<Unfit>, Stop>
    requires named { IsName name.now }
    requires fresh { new_name c.old.problem name.now ≡ None }
    ensures goes_on { GoesOn c.old c.new }
    ensures ok { IfOk result (λ behind. var_at c.old.problem name.now (rest c.old) ≡ Ok (record { problem = c.new.problem; behind = behind }, rest c.new)) }
    ensures err { IfErr result (λ e. Stops e (var_at c.old.problem name.now (rest c.old))) }
{
    c.inst().lawful();
    c.mark(Mark::Equals, None)?;
    let named = one_name(c)?;
    if named.behind.is_some() {
        return Ok(named.behind);
    }
    let text = text_of(c.alloc(), name)?;
    let dims = Dims::new(c.alloc());
    c.alias(text, dims, named.vars)?;
    Ok(None)
}

/// Reads an alias after its word. Answers what the token after it breaks.
pub fn alias(c: &mut Cursor) -> Result<Option<Unfit>, Stop>
    ensures goes_on { GoesOn c.old c.new }
    ensures ok { IfOk result (λ behind. alias_at c.old.problem (rest c.old) ≡ Ok (record { problem = c.new.problem; behind = behind }, rest c.new)) }
    ensures err { IfErr result (λ e. Stops e (alias_at c.old.problem (rest c.old))) }
{
    let name = name(c)?;
    if !c.is_mark(Mark::OpenSquare) {
        return one(c, name);
    }
    c.mark(Mark::OpenSquare, None)?;
    matrix(c, name)?;
    Ok(None)
}
