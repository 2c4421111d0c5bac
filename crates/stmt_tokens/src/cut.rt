ghost use Rattle.std.specs.Prelude.{◌≡◌, ◌∷◌, ◌≤◌, length, IfOk, MatchOption, None, Some};
ghost use Rattle.stmt_tokens.specs.Tokens as spec;

use crate::bytes::{digits_len, is_blank, is_bytes, is_letter, is_number};
use crate::lex::token_at;
use crate::token::TokenList;
use lake_types::Listed;
use std::alloc::{AllocError, Global};

/// The tokens of a line, and the offset of each one's first byte.
#[derive(Debug, Drop)]
pub struct Cut {
    pub tokens: TokenList,
    pub places: Listed<usize>,
}

/// Passes a blank, or adds the next token of a line of so many bytes, and gives what is behind it.
#[tactic(auto, using(crate::proofs::TokenLemmas::steps))]
fn next<'a>(
    alloc: Global,
    tokens: &mut Cut,
    len: usize,
    rest: &'a [u8],
) -> Result<&'a [u8], AllocError>
    requires { length rest.now ≤ len }
    ensures goes_on { IfOk result (λ more. spec.GoesOn len tokens.old rest.now tokens.new more.now) }
    ensures within { IfOk result (λ more. length more.now ≤ len) }
{
    let Some((first, more)) = rest.split_first() else {
        return Ok(rest);
    };
    if is_blank(*first) {
        return Ok(more);
    }
    let (token, taken) = token_at(alloc, *first, more)?;
    tokens.tokens.push(token)?;
    tokens.places.push(len - rest.len())?;
    Ok(more.split_at(taken).1)
}

/// The tokens of a line. Bytes that are no token are one bad token to the line's end.
#[tactic(auto, unfolding(crate::specs::Tokens::cut_of), using(crate::proofs::TokenLemmas::ends))]
pub fn cut_of(alloc: Global, line: &[u8]) -> Result<Cut, AllocError>
    ensures { IfOk result (λ tokens. tokens ≡ spec.cut_of line.now) }
{
    let mut tokens = Cut {
        tokens: Listed::new(alloc),
        places: Listed::new(alloc),
    };
    let mut rest = line;
    for _turn in 0..line.len() {
        if rest.is_empty() {
            return Ok(tokens);
        }
        rest = next(alloc, &mut tokens, line.len(), rest)?;
    }
    Ok(tokens)
}

#[tactic(auto, unfolding(crate::specs::Tokens::begins_number))]
fn begins_number(b: u8, rest: &[u8]) -> bool
    ensures { result ≡ spec.begins_number b rest.now }
{
    !is_bytes(b, rest) && !is_letter(b) && is_number(b, rest)
}

/// The text of the token at the front of these bytes, of which the first is given, where it is a number.
#[tactic(auto, using(crate::proofs::NumberLemmas::fronts))]
fn number_at_front<'a>(b: u8, rest: &[u8], text: &'a [u8]) -> Option<&'a [u8]>
    requires { text.now ≡ b ∷ rest.now }
    ensures { MatchOption result (spec.number_at_front b rest.now ≡ None) (λ number. spec.number_at_front b rest.now ≡ Some number.now) }
{
    if begins_number(b, rest) {
        Some(text.split_at(digits_len(rest) + 1).0)
    } else {
        None
    }
}

/// The text of a line's first token, where it is a number.
#[tactic(auto, unfolding(crate::specs::Tokens::number_at_front))]
pub fn first_number(line: &[u8]) -> Option<&[u8]>
    ensures { MatchOption result (spec.number_first line.now ≡ None) (λ number. spec.number_first line.now ≡ Some number.now) }
{
    let mut rest = line;
    while let [b, more @ ..] = rest {
        if !is_blank(*b) {
            return number_at_front(*b, more, rest);
        }
        rest = more;
    }
    None
}
