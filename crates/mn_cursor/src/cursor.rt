//! A text's tokens, the place in them, and the instance so far.
ghost use Rattle.std.specs.Prelude.{◌≡◌, ◌+◌, ◌<◌, ◌≤◌, ◌-◌, [], ◌∷◌, ◌++◌, length, drop, map, slice_get, Some, None, All, IfNone, IfOk, IfSome, OnErr, OnOk};
ghost use Rattle.std.specs.Option.{option_map};
ghost use Rattle.mn_lexer.specs.Reading.{IsLexed, IsTokenOf, bytes_of};
ghost use Rattle.mn_lexer.specs.Terminals.{token_of};
ghost use Rattle.mn_lexer.specs.declared.TheConstants.{TEXT_LIMIT};
ghost use Rattle.std.specs.List.{AllByRecursion};
ghost use Rattle.mn_model.specs.Lawful.{IsKnown, IsLawfulAlias, IsLawfulCon, IsLawfulOrder, IsLawfulPrint, IsLawfulTuples, SuitsKind};
ghost use Rattle.mn_model.specs.Name.{IsName};
ghost use Rattle.mn_model.specs.Parts.{cell_count};
ghost use Rattle.mn_model.specs.Problem.{aliased_as, cells_of, declared_as, domains_of, listed_as, nothing, size_of_dims, variable_count};
ghost use Rattle.mn_cursor.specs.Added.{with_alias, with_declaration, with_tuples};
ghost use Rattle.mn_model.specs.declared.limits.TheConstants.{CELLS, CONSTRAINTS, VARIABLES};
ghost use Rattle.mn_grammar.specs.Reading.{fault_at};
ghost use Rattle.mn_grammar.specs.declared.Stop.TheVariants.{Refused};
ghost use Rattle.mn_cursor.specs.Progress.{IsProgress, nothing_asked, tokens_left, rest, Moves};
ghost use Rattle.mn_cursor.specs.Looks.{terminal_of, IsFair};

use crate::asked::Asked;
use crate::looks::{Seen, seen_of};
use mn_grammar::{Fault, Kind, Stop};
use mn_lexer::{LexFault, Lexed, Token, Tokens};
use mn_model::{
    Con, Dims, Domain, Goal, Instance, Ints, NoMemory, Order, Print, Refusal, Text, VarIds,
};
use std::alloc::Global;
use std::marker::Model;

/// A text's tokens, the place in them, and the instance so far. Contracts see it as a `Progress`.
#[derive(Drop)]
pub struct Cursor<'a> {
    alloc: Global,
    text: &'a [u8],
    tokens: Tokens,
    stop: Option<LexFault>,
    /// How many tokens are left.
    left: usize,
    inst: Instance,
    asked: Asked,
}

impl<'a> Model for Cursor<'a> {
    ghost use Rattle.mn_cursor.specs.Progress.{Progress};

    ghost Value = { Progress };

    ghost use Rattle.mn_model.specs.contracts.constraint.Con as con;
    ghost use Rattle.std.specs.Coded.{codes};

    ghost coded = { Prim.hlevel (codes, con.the_row.coded) };

    ghost use Rattle.mn_cursor.specs.Progress.{IsProgress};

    ghost view = { λ c. record { text = c.text.now; tokens = c.tokens; stop = c.stop; left = c.left; problem = c.inst; asked = c.asked } };

    ghost invariant = { λ c. IsProgress (record { text = c.text.now; tokens = c.tokens; stop = c.stop; left = c.left; problem = c.inst; asked = c.asked }) };
}

impl<'a> Cursor<'a> {
    /// A cursor at the first token, with nothing declared. What it comes to hold is kept in memory of `alloc`.
    pub fn new(alloc: Global, lexed: Lexed, text: &'a [u8]) -> Result<Cursor<'a>, NoMemory>
        requires size { length text.now ≤ TEXT_LIMIT }
        requires lexed { IsLexed text.now lexed.list lexed.stop }
        requires each { All (IsTokenOf text.now) lexed.list }
        ensures { IfOk result (λ c. c ≡ record { text = text.now; tokens = lexed.list; stop = lexed.stop; left = length lexed.list; problem = nothing; asked = nothing_asked }) }
    {
        let inst = Instance::empty(alloc)?;
        let Lexed { list, stop } = lexed;
        Ok(Cursor {
            alloc,
            text,
            left: list.len(),
            tokens: list,
            stop,
            inst,
            asked: Asked {
                order: false,
                values: false,
                goal: false,
                print: false,
            },
        })
    }

    /// The token at the place. None comes exactly at the list's end.
    pub fn peek(&self) -> Option<Token>
        ensures token { result ≡ slice_get (tokens_left self.now) 0 }
        ensures first { option_map (token_of self.now.text) result ≡ slice_get (rest self.now) 0 }
        ensures of_text { IfSome result (IsTokenOf self.now.text) }
        ensures there { IfSome result (λ _. 0 < self.now.left) }
        ensures end { IfNone result (rest self.now ≡ []) }
    {
        if self.left == 0 {
            return None;
        }
        Some(self.tokens.get(self.tokens.len() - self.left))
    }

    /// The bytes of the token at the place.
    pub fn bytes(&self) -> &'a [u8]
        requires { 0 < self.now.left }
        ensures { option_map (bytes_of self.now.text) (slice_get (tokens_left self.now) 0) ≡ Some result.now }
    {
        self.bytes_of(self.tokens.get(self.tokens.len() - self.left))
    }

    /// The bytes of a token.
    pub fn bytes_of(&self, token: Token) -> &'a [u8]
        requires { IsTokenOf self.now.text token }
        ensures { result.now ≡ bytes_of self.now.text token }
    {
        let at = token.at as usize;
        &self.text[at..at + token.len as usize]
    }

    /// What stands at the place. None comes exactly at the list's end.
    pub fn look(&self) -> Option<Seen<'a>>
        ensures seen { option_map terminal_of result ≡ slice_get (rest self.now) 0 }
        ensures there { IfSome result (λ _. 0 < self.now.left) }
        ensures end { IfNone result (rest self.now ≡ []) }
        ensures fair { IfSome result IsFair }
    {
        let token = self.peek()?;
        Some(seen_of(token.kind, self.bytes_of(token)))
    }

    /// Goes one token on.
    #[tactic(auto, using(crate::proofs::Reached::one_fewer), unfolding(crate::specs::Progress::rest))]
    pub fn step(&mut self)
        requires { 0 < self.old.left }
        ensures moves { Moves self.old self.new }
        ensures next { rest self.new ≡ drop 1 (rest self.old) }
    {
        self.left -= 1;
    }

    /// The fault that ends the list. None comes exactly where no fault ends it.
    pub fn stop(&self) -> Option<LexFault>
        ensures { result ≡ self.now.stop }
    {
        self.stop
    }

    /// Where what is read is kept.
    pub fn alloc(&self) -> Global {
        self.alloc
    }

    /// The text that is read.
    pub fn text(&self) -> &'a [u8]
        ensures { result.now ≡ self.now.text }
    {
        self.text
    }

    /// All tokens of the text.
    pub fn tokens(&self) -> &Tokens
        ensures { result.now ≡ self.now.tokens }
    {
        &self.tokens
    }

    /// The instance so far.
    pub fn inst(&self) -> &Instance
        ensures { result.now ≡ self.now.problem }
    {
        &self.inst
    }

    /// Adds a constraint at the end. After an `Err` the constraint is given up.
    pub fn add(&mut self, con: Con) -> Result<(), NoMemory>
        requires lawful { IsLawfulCon (domains_of self.old.problem.decls) self.old.problem.tuples con }
        requires room { length self.old.problem.cons < CONSTRAINTS }
        requires cells { cells_of self.old.problem + cell_count con ≤ CELLS }
        ensures ok { OnOk result (self.new ≡ record self.old { problem = record self.old.problem { cons = self.old.problem.cons ++ con ∷ [] } }) }
        ensures err { OnErr result (self.new ≡ self.old) }
    {
        self.inst.add(con)
    }

    /// Declares variables. After an `Err` the arguments are given up.
    pub fn declare(
        &mut self,
        name: Text,
        dims: Dims,
        kind: mn_model::Kind,
        domain: Domain,
    ) -> Result<(), NoMemory>
        requires named { IsName name }
        requires fresh { declared_as self.old.problem.decls name ≡ None }
        requires unused { aliased_as self.old.problem.aliases name ≡ None }
        requires shaped { AllByRecursion (λ dim. 1 ≤ dim) dims }
        requires suits { SuitsKind kind domain }
        requires room { variable_count self.old.problem.decls + size_of_dims dims ≤ VARIABLES }
        ensures ok { OnOk result (self.new ≡ record self.old { problem = with_declaration self.old.problem name dims kind domain }) }
        ensures err { OnErr result (self.new ≡ self.old) }
    {
        self.inst.declare(name, dims, kind, domain)?;
        Ok(())
    }

    /// Gives a further name to variables. After an `Err` the arguments are given up.
    pub fn alias(&mut self, name: Text, dims: Dims, vars: VarIds) -> Result<(), NoMemory>
        requires fresh { declared_as self.old.problem.decls name ≡ None }
        requires unused { aliased_as self.old.problem.aliases name ≡ None }
        requires lawful { IsLawfulAlias (domains_of self.old.problem.decls) (record { name = name; dims = dims; vars = vars }) }
        ensures ok { OnOk result (self.new ≡ record self.old { problem = with_alias self.old.problem name dims vars }) }
        ensures err { OnErr result (self.new ≡ self.old) }
    {
        self.inst.alias(name, dims, vars)
    }

    /// Adds a tuple list. After an `Err` the arguments are given up.
    pub fn tuples_add(&mut self, name: Text, arity: u64, cells: Ints) -> Result<(), NoMemory>
        requires unused { listed_as self.old.problem.tuples name ≡ None }
        requires lawful { IsLawfulTuples (record { name = name; arity = arity; cells = cells }) }
        requires room { cells_of self.old.problem + length cells ≤ CELLS }
        ensures ok { OnOk result (self.new ≡ record self.old { problem = with_tuples self.old.problem name arity cells }) }
        ensures err { OnErr result (self.new ≡ self.old) }
    {
        self.inst.tuples_add(name, arity, cells)
    }

    /// Says which variables the search takes first.
    pub fn set_order(&mut self, order: Order)
        requires { IsLawfulOrder (domains_of self.old.problem.decls) order }
        ensures { self.new ≡ record self.old { problem = record self.old.problem { order = order } } }
    {
        self.inst.set_order(order);
    }

    /// Says what is to be made large or small.
    pub fn set_goal(&mut self, goal: Goal)
        requires { IsKnown (domains_of self.old.problem.decls) goal.var }
        ensures { self.new ≡ record self.old { problem = record self.old.problem { goal = Some goal } } }
    {
        self.inst.set_goal(goal);
    }

    /// Says what is to be printed of a solution.
    pub fn set_print(&mut self, print: Print)
        requires { IsLawfulPrint (domains_of self.old.problem.decls) print }
        ensures { self.new ≡ record self.old { problem = record self.old.problem { print = print } } }
    {
        self.inst.set_print(print);
    }

    /// Which items on how to search the text has had so far.
    pub fn asked(&self) -> Asked
        ensures { result ≡ self.now.asked }
    {
        self.asked
    }

    /// Says which items on how to search the text has had.
    pub fn set_asked(&mut self, asked: Asked)
        ensures { self.new ≡ record self.old { asked = asked } }
    {
        self.asked = asked;
    }

    /// The instance, once the text is read.
    pub fn finish(self) -> Instance
        ensures { result ≡ self.entry.problem }
    {
        self.inst
    }

    /// What stops the reading at the place.
    #[tactic(auto, using(crate::proofs::Reached::length_rest))]
    pub fn refused(&self, kind: Kind) -> Stop
        ensures { result ≡ Refused (fault_at (rest self.now) kind) }
    {
        Stop::Refused(Fault {
            left: self.left,
            kind,
        })
    }

    /// How many tokens are left.
    pub fn left(&self) -> usize
        ensures { result ≡ self.now.left }
    {
        self.left
    }

    /// What every cursor keeps.
    pub fn lawful(&self)
        ensures { IsProgress self.now }
    {
        let _left = self.left;
    }

    /// Goes on to where so many tokens are left.
    pub fn go_to(&mut self, left: usize)
        requires { left ≤ length self.old.tokens }
        ensures { self.new ≡ record self.old { left = left } }
    {
        self.left = left;
    }
}
