//! A place in the text of a cursor, at which reading may borrow from the instance.
ghost use Rattle.std.specs.Prelude.{◌≡◌, true, ◌<◌, ◌≤◌, ◌-◌, [], length, drop, slice_get, Some, None, IfNone, IfOk, IfSome, is_some};
ghost use Rattle.std.specs.Option.{option_map};
ghost use Rattle.mn_lexer.specs.Reading.{IsTokenOf};
ghost use Rattle.mn_lexer.specs.Terminals.{token_of};
ghost use Rattle.mn_grammar.specs.Tokens.{name_of, number_of};
ghost use Rattle.mn_grammar.specs.Reading.{fault_at, judged, kind_at, mark_at, one, refused, which_mark};
ghost use Rattle.mn_grammar.specs.Gives.{Gives};
ghost use Rattle.mn_grammar.specs.declared.Stop.TheVariants.{Refused};
ghost use Rattle.mn_grammar.specs.declared.site.Site.TheVariants.{Free, MarksOnly};
ghost use Rattle.mn_cursor.specs.Progress.{IsProgress, tokens_left, rest, Moves};
ghost use Rattle.mn_cursor.specs.Lists.{comma_or_at, which_comma_or};
ghost use Rattle.mn_cursor.specs.Looks.{terminal_of, first_as, IsFair, Sees};
ghost use Rattle.mn_references.specs.References.{index_kind};
ghost use Rattle.mn_references.specs.Referring.{which_entry, which_sub};
ghost use Rattle.mn_references.specs.Placing.{start_seen, IsStartName};
ghost use Rattle.mn_references.specs.Lookups.{is_fine, sub_seen};
ghost use Rattle.mn_references.specs.Listing.{ends_at};
ghost use Rattle.mn_model.specs.Domain.{IsValue};
ghost use Rattle.mn_model.specs.Name.{IsName};

use crate::indices::{Index, index_kind};
use mn_cursor::{Cursor, Seen, seen_of};
use mn_grammar::{Fault, Kind, Site, Stop, is_name, kind_at};
use mn_lexer::{Mark, Token};
use mn_model::Instance;
use std::alloc::Global;
use std::marker::Model;

/// A place in the text of a cursor, which goes on while the cursor stands. So what is read may borrow from the
/// instance. Contracts see it as the cursor's progress at that place.
#[derive(Drop)]
pub struct Scan<'c, 'a> {
    cursor: &'c Cursor<'a>,
    left: usize,
}

impl<'c, 'a> Model for Scan<'c, 'a> {
    ghost use Rattle.mn_cursor.specs.Progress.{Progress};

    ghost Value = { Progress };

    ghost use Rattle.mn_model.specs.contracts.constraint.Con as con;
    ghost use Rattle.std.specs.Coded.{codes};

    ghost coded = { Prim.hlevel (codes, con.the_row.coded) };

    ghost use Rattle.mn_cursor.specs.Progress.{IsProgress};

    ghost view = { λ s. record (s.cursor.now) { left = s.left } };

    ghost invariant = { λ s. IsProgress (record (s.cursor.now) { left = s.left }) };
}

/// The first token of an entry.
#[derive(Clone, Copy, Debug)]
pub enum Start<'a> {
    Name(&'a [u8]),
    Number(i64),
    /// `!`.
    Bang,
}

impl<'c, 'a> Scan<'c, 'a> {
    /// The place of a cursor.
    pub fn new(cursor: &'c Cursor<'a>) -> Scan<'c, 'a>
        ensures { result ≡ cursor.now }
    {
        cursor.lawful();
        Scan {
            cursor,
            left: cursor.left(),
        }
    }

    /// How many tokens are left.
    pub fn left(&self) -> usize
        ensures number { result ≡ self.now.left }
        ensures within { result ≤ length self.now.tokens }
    {
        self.left
    }

    /// What every scan keeps.
    pub fn lawful(&self)
        ensures { IsProgress self.now }
    {
        let _left = self.left;
    }

    /// Where what is read is kept.
    pub fn alloc(&self) -> Global {
        self.cursor.alloc()
    }

    /// The instance so far.
    pub fn inst(&self) -> &'c Instance
        ensures { result.now ≡ self.now.problem }
    {
        self.cursor.inst()
    }

    /// The token at the place. None comes exactly at the list's end.
    fn peek(&self) -> Option<Token>
        ensures token { result ≡ slice_get (tokens_left self.now) 0 }
        ensures first { option_map (token_of self.now.text) result ≡ slice_get (rest self.now) 0 }
        ensures of_text { IfSome result (IsTokenOf self.now.text) }
        ensures there { IfSome result (λ _. 0 < self.now.left) }
        ensures end { IfNone result (rest self.now ≡ []) }
    {
        if self.left == 0 {
            return None;
        }
        let tokens = self.cursor.tokens();
        Some(tokens.get(tokens.len() - self.left))
    }

    /// What stands at the place. None comes exactly at the list's end.
    pub fn look(&self) -> Option<Seen<'a>>
        ensures seen { option_map terminal_of result ≡ slice_get (rest self.now) 0 }
        ensures there { IfSome result (λ _. 0 < self.now.left) }
        ensures end { IfNone result (rest self.now ≡ []) }
        ensures fair { IfSome result IsFair }
    {
        let token = self.peek()?;
        Some(seen_of(token.kind, self.cursor.bytes_of(token)))
    }

    /// Goes one token on.
    #[tactic(auto, using(mn_cursor::proofs::Reached::one_fewer), unfolding(mn_cursor::specs::Progress::rest))]
    pub fn step(&mut self)
        requires { 0 < self.old.left }
        ensures moves { Moves self.old self.new }
        ensures next { rest self.new ≡ drop 1 (rest self.old) }
        ensures less { self.new.left < self.old.left }
    {
        self.left -= 1;
    }

    /// What stops the reading at the place.
    #[tactic(auto, using(mn_cursor::proofs::Reached::length_rest))]
    pub fn refused(&self, kind: Kind) -> Stop
        ensures { result ≡ Refused (fault_at (rest self.now) kind) }
    {
        Stop::Refused(Fault {
            left: self.left,
            kind,
        })
    }

    /// The kind of a refusal of what stands at the place, where it isn't wanted.
    #[tactic(auto, using(mn_cursor::proofs::Looking::kind_first))]
    fn kind_here(&self, site: Site) -> Kind
        ensures { result ≡ kind_at site (rest self.now) }
    {
        match self.peek() {
            Some(token) => kind_at(site, token.kind, self.cursor.bytes_of(token)),
            None => Kind::Syntax,
        }
    }

    /// What stops the reading at the place, where what stands there isn't wanted.
    pub fn unwanted(&self, site: Site) -> Stop
        ensures { result ≡ Refused (refused site (rest self.now)) }
    {
        self.refused(self.kind_here(site))
    }

    /// Reads the token at the place, unless a condition on it is broken.
    pub fn accept(&mut self, broken: Option<Kind>) -> Result<(), Stop>
        requires { 0 < self.old.left }
        ensures moves { Moves self.old self.new }
        ensures gives { Gives (λ _. (tt {0}, rest self.new)) result (judged broken (tt {0}) (rest self.old) (drop 1 (rest self.old))) }
        ensures less { IfOk result (λ _. self.new.left < self.old.left) }
    {
        if let Some(kind) = broken {
            return Err(self.refused(kind));
        }
        self.step();
        Ok(())
    }

    /// The name at the place.
    #[tactic(auto, using(mn_cursor::proofs::Fair::is_a_name))]
    pub fn name(&self) -> Result<&'a [u8], Stop>
        ensures sees { Sees Free name_of (λ n. n.now) (rest self.now) result }
        ensures there { IfOk result (λ _. 0 < self.now.left) }
        ensures named { IfOk result (λ n. IsName n.now) }
    {
        match self.look() {
            Some(Seen::Word(bytes)) if is_name(bytes) => Ok(bytes),
            _ => Err(self.unwanted(Site::Free)),
        }
    }

    /// The number at the place.
    pub fn number(&self) -> Result<i64, Stop>
        ensures sees { Sees Free number_of (λ n. n) (rest self.now) result }
        ensures there { IfOk result (λ _. 0 < self.now.left) }
        ensures value { IfOk result IsValue }
    {
        match self.look() {
            Some(Seen::Number(n)) => Ok(n),
            _ => Err(self.unwanted(Site::Free)),
        }
    }

    /// Whether the mark stands at the place.
    pub fn is_mark(&self, mark: Mark) -> bool
        ensures { result ≡ is_some (first_as (which_mark mark) (rest self.now)) }
    {
        match self.look() {
            Some(Seen::Mark(other)) => other == mark,
            _ => false,
        }
    }

    /// The mark at the place.
    pub fn sees_mark(&self, mark: Mark) -> Result<(), Stop>
        ensures sees { Sees MarksOnly (which_mark mark) (λ u. u) (rest self.now) result }
        ensures there { IfOk result (λ _. 0 < self.now.left) }
    {
        match self.look() {
            Some(Seen::Mark(other)) if other == mark => Ok(()),
            _ => Err(self.unwanted(Site::MarksOnly)),
        }
    }

    /// Reads the mark, unless a condition on it is broken.
    #[tactic(auto, using(mn_cursor::proofs::Looking::unseen_stops, mn_cursor::proofs::Looking::seen_stops, mn_cursor::proofs::Looking::seen_reads), unfolding(mn_grammar::specs::Reading::mark_at))]
    pub fn mark(&mut self, mark: Mark, broken: Option<Kind>) -> Result<(), Stop>
        ensures moves { Moves self.old self.new }
        ensures gives { Gives (λ _. (tt {0}, rest self.new)) result (mark_at MarksOnly mark broken (rest self.old)) }
    {
        self.sees_mark(mark)?;
        self.accept(broken)
    }

    /// The index at the place.
    fn sees_index(&self) -> Result<Index, Stop>
        ensures sees { Sees Free which_sub sub_seen (rest self.now) result }
        ensures there { IfOk result (λ _. 0 < self.now.left) }
    {
        match self.look() {
            Some(Seen::Number(i)) => return Ok(Index::Only(i)),
            Some(Seen::Word(bytes)) => {
                if bytes == b"_".as_slice() {
                    return Ok(Index::Each);
                }
            }
            _ => {}
        }
        Err(self.unwanted(Site::Free))
    }

    /// Reads an index, where these dimensions are left.
    #[tactic(auto, using(mn_cursor::proofs::Looking::unseen_stops, mn_cursor::proofs::Looking::seen_stops, mn_cursor::proofs::Looking::seen_reads))]
    pub fn index(&mut self, slices: bool, dims: &[u32]) -> Result<Index, Stop>
        ensures moves { Moves self.old self.new }
        ensures gives { Gives (λ i. (sub_seen i, rest self.new)) result (one Free which_sub (index_kind slices dims.now) (rest self.old)) }
        ensures fine { IfOk result (λ i. is_fine dims.now (sub_seen i) ≡ true) }
        ensures less { IfOk result (λ _. self.new.left < self.old.left) }
    {
        let index = self.sees_index()?;
        self.accept(index_kind(slices, dims, index))?;
        Ok(index)
    }

    /// What stands after an entry of a list: whether it is `,`, and else it is the mark that closes the list.
    pub fn sees_end(&self, shut: Mark) -> Result<bool, Stop>
        ensures sees { Sees MarksOnly (which_comma_or shut) (λ b. b) (rest self.now) result }
        ensures there { IfOk result (λ _. 0 < self.now.left) }
    {
        match self.look() {
            Some(Seen::Mark(Mark::Comma)) => Ok(true),
            Some(Seen::Mark(other)) if other == shut => Ok(false),
            _ => Err(self.unwanted(Site::MarksOnly)),
        }
    }

    /// Reads `,`, with which a list goes on, or the mark that closes it, unless a condition on it is broken. Answers
    /// whether it goes on.
    #[tactic(auto, using(mn_cursor::proofs::Looking::unseen_stops, mn_cursor::proofs::Looking::seen_stops, mn_cursor::proofs::Looking::seen_reads), unfolding(crate::specs::Listing::ends_at))]
    pub fn ends(
        &mut self,
        shut: Mark,
        comma: Option<Kind>,
        close: Option<Kind>,
    ) -> Result<bool, Stop>
        ensures moves { Moves self.old self.new }
        ensures gives { Gives (λ more. (more, rest self.new)) result (ends_at shut comma close (rest self.old)) }
    {
        let more = self.sees_end(shut)?;
        self.accept(if more { comma } else { close })?;
        Ok(more)
    }

    /// Reads `,`, with which a list goes on, or the mark that closes it. Answers whether it goes on.
    #[tactic(auto, using(mn_cursor::proofs::Looking::unseen_stops, mn_cursor::proofs::Looking::seen_stops, mn_cursor::proofs::Looking::seen_reads), unfolding(mn_cursor::specs::Lists::comma_or_at))]
    pub fn comma(&mut self, shut: Mark) -> Result<bool, Stop>
        ensures moves { Moves self.old self.new }
        ensures gives { Gives (λ more. (more, rest self.new)) result (comma_or_at shut (rest self.old)) }
    {
        let more = self.sees_end(shut)?;
        self.accept(None)?;
        Ok(more)
    }

    /// The first token of an entry.
    #[tactic(auto, using(mn_cursor::proofs::Fair::is_a_name))]
    pub fn sees_start(&self) -> Result<Start<'a>, Stop>
        ensures sees { Sees Free which_entry start_seen (rest self.now) result }
        ensures there { IfOk result (λ _. 0 < self.now.left) }
        ensures named { IfOk result IsStartName }
    {
        match self.look() {
            Some(Seen::Word(bytes)) if is_name(bytes) => Ok(Start::Name(bytes)),
            Some(Seen::Number(z)) => Ok(Start::Number(z)),
            Some(Seen::Mark(Mark::Bang)) => Ok(Start::Bang),
            _ => Err(self.unwanted(Site::Free)),
        }
    }
}
