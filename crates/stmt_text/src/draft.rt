ghost use Rattle.std.specs.Prelude.{◌≡◌, ◌∷◌, ◌++◌, [], true, IfOk, OnOk};
ghost use Rattle.std.specs.List.{list_all};
ghost use Rattle.std.specs.String.{string_bytes};
ghost use Rattle.hex.specs.Hex.{encode_lower};
ghost use Rattle.stmt_tokens.specs.Tokens.{is_hex};
ghost use Rattle.stmt_tokens.specs.Laws.{token_of};
ghost use Rattle.stmt_tokens.specs.Spelled.{mark, word};
ghost use Rattle.stmt_text.specs.Printed as spec;

use hex::encode;
use lake_types::{Listed, Words};
use std::alloc::{AllocError, Global};
use stmt_tokens::{Keyword, Kind, Sign, Token, TokenList, word_of};

/// The tokens of a line so far.
#[derive(Drop)]
pub struct Draft {
    pub tokens: TokenList,
    ghost typed: { list_all spec.is_typed tokens ≡ true },
}

impl Draft {
    pub fn new(alloc: Global) -> Draft
        ensures { result.tokens ≡ [] }
    {
        Draft {
            tokens: Listed::new(alloc),
        }
    }

    fn push(&mut self, alloc: Global, kind: Kind, text: &str) -> Result<(), AllocError>
        requires { spec.has_digits kind text.now ≡ true }
        ensures { OnOk result (self.new.tokens ≡ self.old.tokens ++ token_of kind text.now ∷ []) }
    {
        let text = Words::of(alloc, text)?;
        self.tokens.push(Token { kind, text })
    }

    /// Adds a keyword.
    pub fn word(&mut self, alloc: Global, keyword: Keyword) -> Result<(), AllocError>
        ensures { OnOk result (self.new.tokens ≡ self.old.tokens ++ word keyword ∷ []) }
    {
        self.push(alloc, Kind::Keyword(keyword), word_of(keyword))
    }

    /// Adds a sign.
    pub fn sign(&mut self, alloc: Global, sign: Sign) -> Result<(), AllocError>
        ensures { OnOk result (self.new.tokens ≡ self.old.tokens ++ mark sign ∷ []) }
    {
        self.push(alloc, Kind::Sign(sign), "")
    }

    /// Adds a name in quotes.
    pub fn name(&mut self, alloc: Global, name: &Words) -> Result<(), AllocError>
        ensures { OnOk result (self.new.tokens ≡ self.old.tokens ++ spec.quoted name.now ∷ []) }
    {
        self.push(alloc, Kind::Quoted, name.as_str())
    }

    /// Adds a text in quotes.
    pub fn text(&mut self, alloc: Global, text: &str) -> Result<(), AllocError>
        ensures { OnOk result (self.new.tokens ≡ self.old.tokens ++ token_of Kind.Text text.now ∷ []) }
    {
        self.push(alloc, Kind::Text, text)
    }

    /// Adds a number with these digits.
    pub fn number(&mut self, alloc: Global, digits: &str) -> Result<(), AllocError>
        ensures { OnOk result (self.new.tokens ≡ self.old.tokens ++ token_of Kind.Number digits.now ∷ []) }
    {
        self.push(alloc, Kind::Number, digits)
    }

    /// Adds bytes, as two digits each.
    #[tactic(auto, using(crate::proofs::DraftLemmas::typed))]
    pub fn bytes(&mut self, alloc: Global, bytes: &[u8]) -> Result<(), AllocError>
        ensures { OnOk result (self.new.tokens ≡ self.old.tokens ++ token_of Kind.Bytes (encode_lower bytes.now) ∷ []) }
    {
        let digits = encode(alloc, bytes)?;
        self.push(alloc, Kind::Bytes, digits.as_str())
    }
}
