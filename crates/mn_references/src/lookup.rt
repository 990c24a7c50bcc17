//! The variables of a declared name, found without a copy of them.
ghost use Rattle.std.specs.Prelude.{◌≡◌, ◌<◌, ◌≤◌, IfSome};
ghost use Rattle.std.specs.Option.{option_map};
ghost use Rattle.mn_model.specs.Variable.{number_of};
ghost use Rattle.mn_model.specs.Name.{IsName};
ghost use Rattle.mn_model.specs.Problem.{size_of_dims, variable_count};
ghost use Rattle.mn_model.specs.declared.limits.TheConstants.{VARIABLES};
ghost use Rattle.mn_references.specs.References.{lead_of};
ghost use Rattle.mn_references.specs.Lookups.{at_source, lead_seen, IsFilled, IsLookup};

use mn_cursor::str_of;
use mn_model::{Instance, VarId, VarIds, size_of};

/// Where the variables of a name are.
#[derive(Debug, Clone, Copy)]
pub enum Source<'c> {
    /// They follow one another, from this one on.
    From(VarId),
    /// They are listed.
    Listed(&'c VarIds),
}

/// What a name leads to.
#[derive(Debug, Clone, Copy)]
pub struct Lookup<'c> {
    /// The dimensions, none for a single variable.
    pub dims: &'c [u32],
    pub source: Source<'c>,
    /// How many variables there are.
    pub size: usize,
}

impl<'c> Lookup<'c> {
    /// The variable at a place.
    pub fn at(&self, place: usize) -> VarId
        requires within { place < self.now.size }
        requires filled { IsFilled self.now.source self.now.size }
        requires declared { number_of (at_source self.now.source place) ≤ VARIABLES }
        ensures { result ≡ at_source self.now.source place }
    {
        match self.source {
            Source::From(first) => VarId::new((first.number() as usize + place) as u32),
            Source::Listed(vars) => *vars.get(place),
        }
    }
}

/// What a name leads to. None exactly where it isn't declared.
pub fn look_up<'c>(inst: &'c Instance, name: &[u8]) -> Option<Lookup<'c>>
    requires { IsName name.now }
    ensures found { option_map lead_seen result ≡ lead_of inst.now name.now }
    ensures fits { IfSome result (IsLookup inst.now) }
{
    inst.lawful();
    let name = str_of(name);
    if let Some(decl) = inst.find(name) {
        let dims = decl.dims.as_slice();
        return Some(Lookup {
            dims,
            source: Source::From(decl.first),
            size: size_of(dims),
        });
    }
    let alias = inst.find_alias(name)?;
    let vars = &alias.vars;
    Some(Lookup {
        dims: alias.dims.as_slice(),
        source: Source::Listed(vars),
        size: vars.len(),
    })
}
