//! Names that aren't declared yet, and references where one variable is wanted.
ghost use Rattle.std.specs.Prelude.{◌≡◌, ◌||◌, false, None, is_some, IfErr, IfOk};
ghost use Rattle.mn_grammar.specs.Gives.{Gives, Stops};
ghost use Rattle.mn_grammar.specs.Reading.{name_at};
ghost use Rattle.mn_model.specs.Name.{IsName};
ghost use Rattle.mn_model.specs.Problem.{aliased_as, declared_as};
ghost use Rattle.mn_references.specs.References.{one_place};
ghost use Rattle.mn_references.specs.Referring.{ref_at};
ghost use Rattle.mn_cursor.specs.Progress.{rest, Moves};
ghost use Rattle.mn_decls.specs.Brackets.{IsNamed};
ghost use Rattle.mn_decls.specs.Variables.{new_name};

use mn_cursor::{Cursor, str_of};
use mn_grammar::{Kind, Stop};
use mn_model::{Instance, VarIds};
use mn_references::{Aimed, Scan, Unfit, reference_at};

/// What a reference names where one variable is wanted.
#[derive(Debug, Drop)]
pub struct Named {
    pub vars: VarIds,
    /// What the token after it breaks, where it names a whole matrix.
    pub behind: Option<Unfit>,
}

/// Whether a name is declared, as a variable, a matrix or an alias.
pub fn is_known(inst: &Instance, name: &[u8]) -> bool
    requires { IsName name.now }
    ensures { result ≡ (is_some (declared_as inst.now.decls name.now) || is_some (aliased_as inst.now.aliases name.now)) }
{
    let name = str_of(name);
    inst.find(name).is_some() || inst.find_alias(name).is_some()
}

/// The condition on a name that is declared.
fn new_name(inst: &Instance, name: &[u8]) -> Option<Kind>
    requires { IsName name.now }
    ensures { result ≡ new_name inst.now name.now }
{
    if is_known(inst, name) {
        Some(Kind::Name)
    } else {
        None
    }
}

/// Reads a name that isn't declared yet.
#[tactic(auto, using(mn_cursor::proofs::Looking::unseen_stops, mn_cursor::proofs::Looking::seen_stops, mn_cursor::proofs::Looking::seen_reads), unfolding(mn_grammar::specs::Reading::name_at))]
pub fn name<'a>(c: &mut Cursor<'a>) -> Result<&'a [u8], Stop>
    ensures moves { Moves c.old c.new }
    ensures gives { Gives (λ name. (name.now, rest c.new)) result (name_at (new_name c.old.problem) (rest c.old)) }
    ensures named { IfOk result (λ name. IsName name.now) }
    ensures fresh { IfOk result (λ name. new_name c.old.problem name.now ≡ None) }
{
    let name = c.name()?;
    c.accept(new_name(c.inst(), name))?;
    Ok(name)
}

/// Reads a reference where one variable is wanted.
pub fn one_name(c: &mut Cursor) -> Result<Named, Stop>
    ensures moves { Moves c.old c.new }
    ensures ok { IfOk result (IsNamed c.old.problem (rest c.old) (rest c.new)) }
    ensures err { IfErr result (λ e. Stops e (ref_at c.old.problem (one_place c.old.problem false) (rest c.old))) }
{
    let mut scan = Scan::new(c);
    let reference = reference_at(&mut scan, Aimed::One(false))?;
    let left = scan.left();
    let named = Named {
        vars: reference.vars,
        behind: reference.behind,
    };
    c.go_to(left);
    Ok(named)
}
