ghost use Rattle.std.specs.Prelude.{◌≡◌, ◌≢◌, Err, if◌then◌else◌, drop, length, ◌≤◌, Option};
ghost use Rattle.stmt_grammar.specs.Grammar.{starts, read};
ghost use Rattle.stmt_grammar.specs.Reads.{Reads};
ghost use Rattle.stmt_grammar.specs.Phrases.{is, is_keyword, is_sign, mark, only, word};

use std::alloc::AllocError;
use stmt_tokens::{Keyword, Kind, Sign, Token};

/// Why nothing is read: a wrong token, which then comes next, or want of memory.
#[derive(Clone, Copy, Debug, PartialEq, Eq)]
pub enum Stop {
    Wrong,
    Memory,
}

impl From<AllocError> for Stop {
    ghost use Rattle.std.specs.Prelude.{◌≡◌};
    ghost use Rattle.stmt_grammar.specs.declared.cursor.Stop.TheVariants.{Memory};

    ghost from_gives = { λ _ e. e ≡ Memory };

    fn from(_e: AllocError) -> Stop {
        Stop::Memory
    }
}

/// The tokens that are still to be read.
#[derive(Clone, Copy)]
pub struct Cursor<'a> {
    pub rest: &'a [Token],
}

fn same_keyword(a: Keyword, b: Keyword) -> bool
    ensures { result ≡ is_keyword a b }
{
    a == b
}

fn same_sign(a: Sign, b: Sign) -> bool
    ensures { result ≡ is_sign a b }
{
    a == b
}

#[tactic(auto, unfolding(crate::specs::Phrases::is))]
fn same_kind(a: Kind, b: Kind) -> bool
    ensures { result ≡ is a b }
{
    match (a, b) {
        (Kind::Keyword(a), Kind::Keyword(b)) => same_keyword(a, b),
        (Kind::Sign(a), Kind::Sign(b)) => same_sign(a, b),
        (Kind::Word, Kind::Word)
        | (Kind::Quoted, Kind::Quoted)
        | (Kind::Number, Kind::Number)
        | (Kind::Text, Kind::Text)
        | (Kind::Bytes, Kind::Bytes)
        | (Kind::Bad, Kind::Bad) => true,
        _ => false,
    }
}

impl<'a> Cursor<'a> {
    /// Whether a token of this kind comes next.
    pub fn sees_kind(&self, kind: Kind) -> bool
        ensures { result ≡ starts (is kind) self.now.rest.now }
    {
        match self.rest {
            [token, ..] => same_kind(kind, token.kind),
            [] => false,
        }
    }

    /// Whether this keyword comes next.
    pub fn sees(&self, keyword: Keyword) -> bool
        ensures { result ≡ starts (is (Kind.Keyword keyword)) self.now.rest.now }
    {
        self.sees_kind(Kind::Keyword(keyword))
    }

    /// Whether this sign comes next.
    pub fn sees_sign(&self, sign: Sign) -> bool
        ensures { result ≡ starts (is (Kind.Sign sign)) self.now.rest.now }
    {
        self.sees_kind(Kind::Sign(sign))
    }

    fn take(&mut self, kind: Kind) -> Result<(), Stop>
        ensures exact { Reads (read (only kind) self.old.rest.now) result self.new.rest.now }
        ensures takes_no_memory { result ≢ Err Stop.Memory }
    {
        match self.rest {
            [token, more @ ..] => {
                if same_kind(kind, token.kind) {
                    self.rest = more;
                    Ok(())
                } else {
                    Err(Stop::Wrong)
                }
            }
            [] => Err(Stop::Wrong),
        }
    }

    /// Takes this keyword.
    pub fn expect(&mut self, keyword: Keyword) -> Result<(), Stop>
        ensures exact { Reads (read (word keyword) self.old.rest.now) result self.new.rest.now }
        ensures takes_no_memory { result ≢ Err Stop.Memory }
    {
        self.take(Kind::Keyword(keyword))
    }

    /// Takes this sign.
    pub fn expect_sign(&mut self, sign: Sign) -> Result<(), Stop>
        ensures exact { Reads (read (mark sign) self.old.rest.now) result self.new.rest.now }
        ensures takes_no_memory { result ≢ Err Stop.Memory }
    {
        self.take(Kind::Sign(sign))
    }
}
