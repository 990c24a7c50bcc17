//! What a text declares and asks, lawful at any time.
ghost use Rattle.std.specs.Prelude.{◌≡◌, ◌+◌, ◌<◌, ◌≤◌, [], ◌∷◌, ◌++◌, length, slice_get, None, Some, IfOk, IfSome, OnOk, OnErr};
ghost use Rattle.std.specs.List.{AllByRecursion};
ghost use Rattle.mn_model.specs.Index.{entries_read};
ghost use Rattle.mn_model.specs.Name.{IsName};
ghost use Rattle.mn_model.specs.Problem.{size_of_dims, variable_in, variable_through};
ghost use Rattle.mn_model.specs.Variable.{number_of};

use super::copying::{copy_all, copy_of_each};
use super::dims::{offset_of, size_of};
use super::name::string_of;
use super::{
    Alias, CELLS, CONSTRAINTS, Con, Decl, Dims, Domain, Goal, Ints, Kind, Order, Print, Sequence,
    Shared, Text, Tuples, VARIABLES, VarId, VarIds,
};
use indexmap::IndexMap;
use std::alloc::{AllocError, Global};
use std::marker::Model;

/// What a name leads to, by its place in the declarations or in the aliases.
#[derive(Clone, Copy, Debug)]
enum Entry {
    Declared(usize),
    Aliased(usize),
}

/// What a text declares and asks, how it is to be searched, and what is to be printed. It is lawful by its type, and
/// contracts see it as a `Problem`.
#[derive(Drop)]
pub struct Instance {
    decls: Vec<Decl>,
    aliases: Vec<Alias>,
    /// What each name of a variable, of a matrix or of an alias leads to.
    names: IndexMap<String, Entry>,
    /// The place in `decls` of each variable's declaration.
    owners: Vec<u32>,
    tuples: Vec<Tuples>,
    /// The place in `tuples` of each name of a tuple list.
    lists: IndexMap<String, usize>,
    cons: Sequence<Con>,
    /// How many cells all tuples have.
    cells: u64,
    order: Order,
    goal: Option<Goal>,
    print: Print,
}

impl Model for Instance {
    ghost use Rattle.mn_model.specs.Problem.{Problem};

    ghost Value = { Problem };

    ghost use Rattle.mn_model.specs.contracts.constraint.Con as con;
    ghost use Rattle.std.specs.Coded.{codes};

    ghost coded = { Prim.hlevel (codes, con.the_row.coded) };

    ghost use Rattle.mn_model.specs.Index.{IsKept};

    ghost view = { λ i. record { decls = i.decls.items; aliases = i.aliases.items; tuples = i.tuples.items; cons = i.cons; order = i.order; goal = i.goal; print = i.print } };

    ghost invariant = { λ i. IsKept (record { decls = i.decls.items; aliases = i.aliases.items; tuples = i.tuples.items; cons = i.cons; order = i.order; goal = i.goal; print = i.print }) i.names.entries i.lists.entries i.owners.items i.cells };
}

impl Instance {
    ghost use Rattle.std.specs.Option.{option_map, option_copied, option_and_then};
    ghost use Rattle.std.specs.List.{AllByRecursion};
    ghost use Rattle.mn_model.specs.Lawful.{IsLawful, IsLawfulAlias, IsLawfulCon, IsLawfulDecl, IsLawfulOrder, IsLawfulPrint, IsLawfulTuples, IsKnown, SuitsKind};
    ghost use Rattle.mn_model.specs.Parts.{cell_count};
    ghost use Rattle.mn_model.specs.Problem.{Problem, aliased_as, cells_of, declared_as, domains_of, listed_as, nothing, size_of_dims, variable_count, variable_named, variables_of};
    ghost use Rattle.mn_model.specs.Variable.{number_of};

    /// An instance that declares and asks nothing, and prints all. What it comes to hold is kept in memory of `alloc`.
    pub fn empty(alloc: Global) -> Result<Instance, AllocError>
        ensures { IfOk result (λ i. i ≡ nothing) }
    {
        Ok(Instance {
            decls: Vec::new(alloc),
            aliases: Vec::new(alloc),
            names: IndexMap::new(alloc),
            owners: Vec::new(alloc),
            tuples: Vec::new(alloc),
            lists: IndexMap::new(alloc),
            cons: Sequence::new(alloc),
            cells: 0,
            order: Order {
                vars: Sequence::new(alloc),
                down: Sequence::new(alloc),
            },
            goal: None,
            print: Print::All,
        })
    }

    /// What every instance keeps.
    pub fn lawful(&self)
        ensures { IsLawful self.now }
    {
        let _decls = &self.decls;
    }

    /// Declares a variable, or where there are dimensions a matrix of variables, and answers its first variable.
    /// After an `Err` the arguments are given up.
    pub fn declare(
        &mut self,
        name: Text,
        dims: Dims,
        kind: Kind,
        domain: Domain,
    ) -> Result<VarId, AllocError>
        requires named { IsName name }
        requires fresh { declared_as self.old.decls name ≡ None }
        requires unused { aliased_as self.old.aliases name ≡ None }
        requires shaped { AllByRecursion (λ dim. 1 ≤ dim) dims }
        requires suits { SuitsKind kind domain }
        requires room { variable_count self.old.decls + size_of_dims dims ≤ VARIABLES }
        ensures number { IfOk result (λ first. number_of first ≡ variable_count self.old.decls) }
        ensures ok { IfOk result (λ first. self.new ≡ record self.old {
          decls = self.old.decls
              ++ record { name = name; dims = dims; kind = kind; domain = domain; first = first } ∷ [];
        }) }
        ensures err { OnErr result (self.new ≡ self.old) }
    {
        domain.lawful();
        let first = VarId::new(self.owners.len() as u32);
        let place = self.decls.len();
        let size = size_of(dims.as_slice());
        let key = string_of(*self.owners.allocator(), name.as_slice())?;
        self.owners.reserve(size)?;
        self.decls.reserve(1)?;
        self.names.insert(key, Entry::Declared(place))?;
        // Room for what follows was made above.
        self.owners.resize(self.owners.len() + size, place as u32)?;
        self.decls.push(Decl {
            name,
            dims,
            kind,
            domain,
            first,
        })?;
        Ok(first)
    }

    /// Gives a further name to a variable, or where there are dimensions to a matrix of variables. After an `Err` the
    /// arguments are given up.
    pub fn alias(&mut self, name: Text, dims: Dims, vars: VarIds) -> Result<(), AllocError>
        requires fresh { declared_as self.old.decls name ≡ None }
        requires unused { aliased_as self.old.aliases name ≡ None }
        requires lawful { IsLawfulAlias (domains_of self.old.decls) (record { name = name; dims = dims; vars = vars }) }
        ensures ok { OnOk result (self.new ≡ record self.old {
          aliases = self.old.aliases ++ record { name = name; dims = dims; vars = vars } ∷ [];
        }) }
        ensures err { OnErr result (self.new ≡ self.old) }
    {
        let place = self.aliases.len();
        let key = string_of(*self.aliases.allocator(), name.as_slice())?;
        self.aliases.reserve(1)?;
        self.names.insert(key, Entry::Aliased(place))?;
        // Room for it was made above.
        self.aliases.push(Alias { name, dims, vars })?;
        Ok(())
    }

    /// Adds a tuple list: tuples of `arity` numbers each, one after another. After an `Err` the arguments are given up.
    pub fn tuples_add(&mut self, name: Text, arity: u64, cells: Ints) -> Result<(), AllocError>
        requires unused { listed_as self.old.tuples name ≡ None }
        requires lawful { IsLawfulTuples (record { name = name; arity = arity; cells = cells }) }
        requires room { cells_of self.old + length cells ≤ CELLS }
        ensures ok { OnOk result (self.new ≡ record self.old {
          tuples = self.old.tuples ++ record { name = name; arity = arity; cells = cells } ∷ [];
        }) }
        ensures err { OnErr result (self.new ≡ self.old) }
    {
        let place = self.tuples.len();
        let count = cells.len() as u64;
        let key = string_of(*self.tuples.allocator(), name.as_slice())?;
        let cells = Shared::new(cells)?;
        self.tuples.reserve(1)?;
        self.lists.insert(key, place)?;
        // Room for them was made above.
        self.tuples.push(Tuples { name, arity, cells })?;
        self.cells += count;
        Ok(())
    }

    /// Adds a constraint at the end. After an `Err` the constraint is given up.
    pub fn add(&mut self, con: Con) -> Result<(), AllocError>
        requires lawful { IsLawfulCon (domains_of self.old.decls) self.old.tuples con }
        requires room { length self.old.cons < CONSTRAINTS }
        requires cells { cells_of self.old + cell_count con ≤ CELLS }
        ensures ok { OnOk result (self.new ≡ record self.old { cons = self.old.cons ++ con ∷ [] }) }
        ensures err { OnErr result (self.new ≡ self.old) }
    {
        let count = con.cells();
        self.cons.push(con)?;
        self.cells += count;
        Ok(())
    }

    /// Says which variables the search takes first.
    pub fn set_order(&mut self, order: Order)
        requires { IsLawfulOrder (domains_of self.old.decls) order }
        ensures { self.new ≡ record self.old { order = order } }
    {
        self.order = order;
    }

    /// Says what is to be made large or small.
    pub fn set_goal(&mut self, goal: Goal)
        requires { IsKnown (domains_of self.old.decls) goal.var }
        ensures { self.new ≡ record self.old { goal = Some goal } }
    {
        self.goal = Some(goal);
    }

    /// Says what is to be printed of a solution.
    pub fn set_print(&mut self, print: Print)
        requires { IsLawfulPrint (domains_of self.old.decls) print }
        ensures { self.new ≡ record self.old { print = print } }
    {
        self.print = print;
    }

    /// The declaration of a name. None exactly where the name isn't declared.
    pub fn find(&self, name: &str) -> Option<&Decl>
        ensures found { option_copied result ≡ declared_as self.now.decls name.now }
        ensures lawful { IfSome result (λ d. IsLawfulDecl d.now) }
        ensures within { IfSome result (λ d. number_of d.now.first + size_of_dims d.now.dims ≤ VARIABLES) }
        ensures among { IfSome result (λ d. number_of d.now.first + size_of_dims d.now.dims ≤ variable_count self.now.decls) }
    {
        match *self.names.get(name)? {
            Entry::Declared(place) => Some(&self.decls[place]),
            Entry::Aliased(_) => None,
        }
    }

    /// The alias of a name. None exactly where the name isn't an alias.
    pub fn find_alias(&self, name: &str) -> Option<&Alias>
        ensures found { option_copied result ≡ aliased_as self.now.aliases name.now }
        ensures lawful { IfSome result (λ a. IsLawfulAlias (domains_of self.now.decls) a.now) }
    {
        match *self.names.get(name)? {
            Entry::Aliased(place) => Some(&self.aliases[place]),
            Entry::Declared(_) => None,
        }
    }

    /// The place in the tuple lists of the one with this name. None exactly where there is none.
    pub fn find_tuples(&self, name: &str) -> Option<usize>
        ensures found { option_and_then (slice_get self.now.tuples) result ≡ listed_as self.now.tuples name.now }
        ensures within { IfSome result (λ place. place < length self.now.tuples) }
    {
        Some(*self.lists.get(name)?)
    }

    /// The variable that a name means, with these indices where the name is that of a matrix. None exactly where
    /// no variable, matrix or alias of that name has such a place.
    pub fn var(&self, name: &str, subs: &[u32]) -> Option<VarId>
        ensures place { result ≡ variable_named self.now name.now subs.now }
        ensures among { IfSome result (λ v. number_of v < variable_count self.now.decls) }
    {
        match *self.names.get(name)? {
            Entry::Declared(place) => declared_variable(&self.decls[place], subs),
            Entry::Aliased(place) => aliased_variable(&self.aliases[place], subs),
        }
    }

    /// How many variables there are.
    pub fn vars(&self) -> u32
        ensures number { result ≡ variable_count self.now.decls }
        ensures few { result ≤ VARIABLES }
    {
        self.owners.len() as u32
    }

    /// The declaration of a variable.
    fn declaration(&self, v: VarId) -> &Decl
        requires { number_of v < variable_count self.now.decls }
        ensures { slice_get (variables_of self.now.decls) (number_of v) ≡ Some result.now }
    {
        &self.decls[self.owners[v.number() as usize] as usize]
    }

    /// The values that a variable was declared with.
    pub fn domain(&self, v: VarId) -> &Domain
        requires { number_of v < variable_count self.now.decls }
        ensures { slice_get (domains_of self.now.decls) (number_of v) ≡ Some result.now }
    {
        &self.declaration(v).domain
    }

    /// How a variable was declared.
    pub fn kind(&self, v: VarId) -> Kind
        requires { number_of v < variable_count self.now.decls }
        ensures { option_map (λ d. d.kind) (slice_get (variables_of self.now.decls) (number_of v)) ≡ Some result }
    {
        self.declaration(v).kind
    }

    /// The declarations, in order.
    pub fn decls(&self) -> &[Decl]
        ensures { result.now ≡ self.now.decls }
    {
        self.decls.as_slice()
    }

    /// The constraints, in order.
    pub fn cons(&self) -> &[Con]
        ensures { result.now ≡ self.now.cons }
    {
        self.cons.as_slice()
    }

    /// The aliases, in order.
    pub fn aliases(&self) -> &[Alias]
        ensures { result.now ≡ self.now.aliases }
    {
        self.aliases.as_slice()
    }

    /// The tuple lists, in order.
    pub fn tuples(&self) -> &[Tuples]
        ensures { result.now ≡ self.now.tuples }
    {
        self.tuples.as_slice()
    }

    /// How many cells all tuples have, those of the tuple lists and those that stand in constraints.
    pub fn cells(&self) -> u64
        ensures { result ≡ cells_of self.now }
    {
        self.cells
    }

    /// Which variables the search takes first.
    pub fn order(&self) -> &Order
        ensures { result.now ≡ self.now.order }
    {
        &self.order
    }

    /// What is to be made large or small, if anything.
    pub fn goal(&self) -> Option<Goal>
        ensures { result ≡ self.now.goal }
    {
        self.goal
    }

    /// What is to be printed of a solution.
    pub fn print(&self) -> &Print
        ensures { result.now ≡ self.now.print }
    {
        &self.print
    }

    /// An equal instance, in memory of its own but for the tuples of the lists, which both share.
    pub fn copy(&self) -> Result<Instance, AllocError>
        ensures { IfOk result (λ copy. copy ≡ self.now) }
    {
        let alloc = *self.decls.allocator();
        let (decls, aliases, tuples) = self.declared_copy(alloc)?;
        let (names, lists, owners) = copy_of_index(&self.names, &self.lists, &self.owners)?;
        let (cons, order, print) = self.asked_copy(alloc)?;
        Ok(Instance {
            decls,
            aliases,
            names,
            owners,
            tuples,
            lists,
            cons,
            cells: self.cells,
            order,
            goal: self.goal,
            print,
        })
    }

    /// Equal declarations, aliases and tuple lists.
    fn declared_copy(
        &self,
        alloc: Global,
    ) -> Result<(Vec<Decl>, Vec<Alias>, Vec<Tuples>), AllocError>
        ensures { IfOk result (λ copy. (copy.0.items ≡ self.now.decls) × (copy.1.items ≡ self.now.aliases) × (copy.2.items ≡ self.now.tuples)) }
    {
        let decls = copy_all(alloc, self.decls.as_slice())?;
        let aliases = copy_all(alloc, self.aliases.as_slice())?;
        let tuples = copy_all(alloc, self.tuples.as_slice())?;
        Ok((decls, aliases, tuples))
    }

    /// Equal constraints, an equal order and what is printed.
    fn asked_copy(&self, alloc: Global) -> Result<(Sequence<Con>, Order, Print), AllocError>
        ensures { IfOk result (λ copy. (copy.0 ≡ self.now.cons) × (copy.1 ≡ self.now.order) × (copy.2 ≡ self.now.print)) }
    {
        let cons = copy_of_each(alloc, &self.cons)?;
        let order = self.order.copy()?;
        let print = self.print.copy(alloc)?;
        Ok((cons, order, print))
    }
}

// What an instance finds names and declarations by: the two maps and the owners.
type Index = (IndexMap<String, Entry>, IndexMap<String, usize>, Vec<u32>);

// An equal index.
fn copy_of_index(
    names: &IndexMap<String, Entry>,
    lists: &IndexMap<String, usize>,
    owners: &Vec<u32>,
) -> Result<Index, AllocError>
    ensures { IfOk result (λ copy. (entries_read copy.0.entries ≡ entries_read names.now.entries) × (entries_read copy.1.entries ≡ entries_read lists.now.entries) × (copy.2.items ≡ owners.now.items)) }
{
    let names = names.clone()?;
    let lists = lists.clone()?;
    let owners = Vec::from_slice(*owners.allocator(), owners.as_slice())?;
    Ok((names, lists, owners))
}

// The variable that a declaration has at the indices.
fn declared_variable(decl: &Decl, subs: &[u32]) -> Option<VarId>
    requires shaped { AllByRecursion (λ dim. 1 ≤ dim) decl.now.dims }
    requires few { number_of decl.now.first + size_of_dims decl.now.dims ≤ VARIABLES }
    ensures place { result ≡ variable_in (Some decl.now) subs.now }
    ensures within { IfSome result (λ v. number_of v < number_of decl.now.first + size_of_dims decl.now.dims) }
{
    let offset = offset_of(decl.dims.as_slice(), subs)?;
    Some(VarId::new(decl.first.number() + offset as u32))
}

// The variable that an alias has at the indices.
fn aliased_variable(alias: &Alias, subs: &[u32]) -> Option<VarId>
    requires shaped { AllByRecursion (λ dim. 1 ≤ dim) alias.now.dims }
    requires filled { length alias.now.vars ≡ size_of_dims alias.now.dims }
    ensures place { result ≡ variable_through (Some alias.now) subs.now }
{
    let vars = alias.vars.as_slice();
    let offset = offset_of(alias.dims.as_slice(), subs)?;
    Some(vars[offset])
}
