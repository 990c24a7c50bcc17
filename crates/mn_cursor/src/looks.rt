//! What stands at the place of a cursor, and reading one token of a wanted sort.
ghost use Rattle.std.specs.Prelude.{◌≡◌, ◌<◌, [], slice_get, Some, None, drop, IfOk, IfSome, OnOk, IsTrue, true, is_some};
ghost use Rattle.std.specs.Option.{option_map};
ghost use Rattle.mn_lexer.specs.Forms.{HasForm};
ghost use Rattle.mn_lexer.specs.Reading.{IsAllowed};
ghost use Rattle.mn_lexer.specs.Terminals.{terminal};
ghost use Rattle.mn_grammar.specs.Tokens.{is_the_mark, name_of, number_of};
ghost use Rattle.mn_grammar.specs.declared.site.Site.TheVariants.{Free, MarksOnly, Mixed};
ghost use Rattle.mn_grammar.specs.Reading.{which_either, kind_at, judged, mark_at, refused, which_mark};
ghost use Rattle.mn_grammar.specs.Gives.{Gives};
ghost use Rattle.mn_grammar.specs.declared.Stop.TheVariants.{Refused};
ghost use Rattle.mn_model.specs.Domain.{IsValue};
ghost use Rattle.mn_model.specs.Name.{IsName};
ghost use Rattle.mn_cursor.specs.Progress.{rest, Moves};
ghost use Rattle.mn_cursor.specs.Looks.{terminal_of, first_as, first_value, IsFair, IsFirstName, Sees};
ghost use Rattle.mn_cursor.specs.Heads.{head_of};
ghost use Rattle.mn_cursor.specs.Lists.{which_comma_or, comma_or_at};

use crate::Cursor;
use crate::heads::{Head, head_of};
use mn_grammar::{Kind, Site, Stop, is_name, kind_at};
use mn_lexer::{Mark, TokenKind, mark_of, number_value};

/// What stands at the place.
#[derive(Clone, Copy, Debug)]
pub enum Seen<'a> {
    Word(&'a [u8]),
    Number(i64),
    Head(&'a [u8]),
    Mark(Mark),
}

/// What stands where a name or a head is wanted.
#[derive(Clone, Copy, Debug)]
pub enum First<'a> {
    Name(&'a [u8]),
    Head(Head),
}

/// What a token is, by its kind and its bytes.
#[tactic(auto, using(crate::proofs::Fair::is_a_value))]
pub fn seen_of(kind: TokenKind, bytes: &[u8]) -> Seen
    requires form { HasForm kind bytes.now }
    requires allowed { IsAllowed kind bytes.now }
    ensures seen { terminal_of result ≡ terminal kind bytes.now }
    ensures fair { IsFair result }
{
    match kind {
        TokenKind::Word => Seen::Word(bytes),
        TokenKind::Number => Seen::Number(number_value(bytes)),
        TokenKind::Head => Seen::Head(bytes),
        TokenKind::Mark => Seen::Mark(mark_of(bytes)),
    }
}

impl<'a> Cursor<'a> {
    /// The kind of a refusal of what stands at the place, where it isn't wanted.
    #[tactic(auto, using(crate::proofs::Looking::kind_first))]
    fn kind_here(&self, site: Site) -> Kind
        ensures { result ≡ kind_at site (rest self.now) }
    {
        match self.peek() {
            Some(token) => kind_at(site, token.kind, self.bytes_of(token)),
            None => Kind::Syntax,
        }
    }

    /// What stops the reading at the place, where what stands there isn't wanted.
    pub fn unwanted(&self, site: Site) -> Stop
        ensures { result ≡ Refused (refused site (rest self.now)) }
    {
        self.refused(self.kind_here(site))
    }

    /// Reads the token at the place, unless a condition on it is broken.
    pub fn accept(&mut self, broken: Option<Kind>) -> Result<(), Stop>
        requires { 0 < self.old.left }
        ensures moves { Moves self.old self.new }
        ensures gives { Gives (λ _. (tt {0}, rest self.new)) result (judged broken (tt {0}) (rest self.old) (drop 1 (rest self.old))) }
        ensures next { OnOk result (rest self.new ≡ drop 1 (rest self.old)) }
    {
        if let Some(kind) = broken {
            return Err(self.refused(kind));
        }
        self.step();
        Ok(())
    }

    /// The name at the place.
    #[tactic(auto, using(crate::proofs::Fair::is_a_name))]
    pub fn name(&self) -> Result<&'a [u8], Stop>
        ensures sees { Sees Free name_of (λ n. n.now) (rest self.now) result }
        ensures there { IfOk result (λ _. 0 < self.now.left) }
        ensures named { IfOk result (λ n. IsName n.now) }
    {
        match self.look() {
            Some(Seen::Word(bytes)) if is_name(bytes) => Ok(bytes),
            _ => Err(self.unwanted(Site::Free)),
        }
    }

    /// The number at the place.
    pub fn number(&self) -> Result<i64, Stop>
        ensures sees { Sees Free number_of (λ n. n) (rest self.now) result }
        ensures there { IfOk result (λ _. 0 < self.now.left) }
        ensures value { IfOk result IsValue }
    {
        match self.look() {
            Some(Seen::Number(n)) => Ok(n),
            _ => Err(self.unwanted(Site::Free)),
        }
    }

    /// The number at the place, if one stands there.
    pub fn next_number(&self) -> Option<i64>
        ensures number { result ≡ first_as number_of (rest self.now) }
        ensures there { IfSome result (λ _. 0 < self.now.left) }
        ensures value { IfSome result IsValue }
    {
        match self.look() {
            Some(Seen::Number(n)) => Some(n),
            _ => None,
        }
    }

    /// The name or the head at the place.
    #[tactic(auto, using(crate::proofs::Fair::is_a_name))]
    pub fn first(&self) -> Result<First<'a>, Stop>
        ensures sees { Sees Mixed (which_either name_of head_of) first_value (rest self.now) result }
        ensures there { IfOk result (λ _. 0 < self.now.left) }
        ensures named { IfOk result IsFirstName }
    {
        match self.look() {
            Some(Seen::Word(bytes)) if is_name(bytes) => return Ok(First::Name(bytes)),
            Some(Seen::Head(bytes)) => {
                if let Some(head) = head_of(bytes) {
                    return Ok(First::Head(head));
                }
            }
            _ => {}
        }
        Err(self.unwanted(Site::Mixed))
    }

    /// Whether the mark stands at the place.
    pub fn is_mark(&self, mark: Mark) -> bool
        ensures { result ≡ is_some (first_as (which_mark mark) (rest self.now)) }
    {
        match self.look() {
            Some(Seen::Mark(other)) => other == mark,
            _ => false,
        }
    }

    /// The mark at the place.
    pub fn sees_mark(&self, mark: Mark) -> Result<(), Stop>
        ensures sees { Sees MarksOnly (which_mark mark) (λ u. u) (rest self.now) result }
        ensures there { IfOk result (λ _. 0 < self.now.left) }
    {
        match self.look() {
            Some(Seen::Mark(other)) if other == mark => Ok(()),
            _ => Err(self.unwanted(Site::MarksOnly)),
        }
    }

    /// Reads the mark, unless a condition on it is broken.
    #[tactic(auto, using(crate::proofs::Looking::unseen_stops, crate::proofs::Looking::seen_stops, crate::proofs::Looking::seen_reads), unfolding(mn_grammar::specs::Reading::mark_at))]
    pub fn mark(&mut self, mark: Mark, broken: Option<Kind>) -> Result<(), Stop>
        ensures moves { Moves self.old self.new }
        ensures gives { Gives (λ _. (tt {0}, rest self.new)) result (mark_at MarksOnly mark broken (rest self.old)) }
    {
        self.sees_mark(mark)?;
        self.accept(broken)
    }

    /// Whether `,` stands at the place, and not the mark that closes a list.
    fn sees_comma(&self, shut: Mark) -> Result<bool, Stop>
        ensures sees { Sees MarksOnly (which_comma_or shut) (λ b. b) (rest self.now) result }
        ensures there { IfOk result (λ _. 0 < self.now.left) }
    {
        match self.look() {
            Some(Seen::Mark(Mark::Comma)) => Ok(true),
            Some(Seen::Mark(other)) if other == shut => Ok(false),
            _ => Err(self.unwanted(Site::MarksOnly)),
        }
    }

    /// Reads `,`, with which a list goes on, or the mark that closes it. Answers whether it goes on.
    #[tactic(auto, using(crate::proofs::Looking::unseen_stops, crate::proofs::Looking::seen_stops, crate::proofs::Looking::seen_reads), unfolding(crate::specs::Lists::comma_or_at))]
    pub fn comma(&mut self, shut: Mark) -> Result<bool, Stop>
        ensures moves { Moves self.old self.new }
        ensures gives { Gives (λ more. (more, rest self.new)) result (comma_or_at shut (rest self.old)) }
    {
        let more = self.sees_comma(shut)?;
        self.accept(None)?;
        Ok(more)
    }
}
