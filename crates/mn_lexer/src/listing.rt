//! Tokens in order, eight bytes each.
ghost use Rattle.std.specs.Prelude.{◌≡◌, ◌<◌, length, [], ◌∷◌, ◌++◌, OnOk, OnErr, slice_get};

use super::{NoMemory, Token, TokenKind};
use std::alloc::Global;
use std::marker::Model;

// The length that stands for all that don't fit.
const LONG: u16 = 0xffff;

// A token in eight bytes. Where the length is `LONG`, the place is that of the token in the list of long ones.
#[derive(Clone, Copy, Debug)]
struct Stored {
    at: u32,
    len: u16,
    kind: TokenKind,
}

/// Tokens in order.
#[derive(Debug, Drop)]
pub struct Tokens {
    items: Vec<Stored>,
    // The tokens of 65,535 bytes or more.
    long: Vec<Token>,
}

impl Model for Tokens {
    ghost use Rattle.std.specs.Prelude.{List, map, All};
    ghost use Rattle.mn_lexer.specs.declared.Token.{Token};
    ghost use Rattle.mn_lexer.specs.Stored.{whole, IsStored};

    ghost Value = { List Token };

    ghost view = { λ t. map (whole t.long.items) t.items.items };

    ghost invariant = { λ t. All (IsStored t.long.items) t.items.items };
}

impl Tokens {
    /// No tokens. Takes no memory.
    pub fn new(alloc: Global) -> Self
        ensures { result ≡ [] }
    {
        Tokens {
            items: Vec::new(alloc),
            long: Vec::new(alloc),
        }
    }

    pub fn push(&mut self, token: Token) -> Result<(), NoMemory>
        ensures ok { OnOk result (self.new ≡ self.old ++ token ∷ []) }
        ensures err { OnErr result (self.new ≡ self.old) }
    {
        if token.len >= u32::from(LONG) {
            return self.push_long(token);
        }
        self.items.push(Stored {
            at: token.at,
            len: token.len as u16,
            kind: token.kind,
        })?;
        Ok(())
    }

    #[cold]
    #[inline(never)]
    fn push_long(&mut self, token: Token) -> Result<(), NoMemory>
        ensures ok { OnOk result (self.new ≡ self.old ++ token ∷ []) }
        ensures err { OnErr result (self.new ≡ self.old) }
    {
        let place = self.long.len();
        if place > 0xffff_ffff {
            return Err(NoMemory);
        }
        self.items.reserve(1)?;
        self.long.push(token)?;
        self.items.push_reserved(Stored {
            at: place as u32,
            len: LONG,
            kind: token.kind,
        });
        Ok(())
    }

    pub fn len(&self) -> usize
        ensures { result ≡ length self.now }
    {
        self.items.len()
    }

    pub fn get(&self, i: usize) -> Token
        requires { i < length self.now }
        ensures { slice_get self.now i ≡ Some result }
    {
        let stored = self.items[i];
        if stored.len == LONG {
            return self.long[stored.at as usize];
        }
        Token {
            kind: stored.kind,
            at: stored.at,
            len: u32::from(stored.len),
        }
    }
}
