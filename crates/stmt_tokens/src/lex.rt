ghost use Rattle.std.specs.Prelude.{◌≡◌, ◌∷◌, ◌≤◌, ◌<◌, ◌+◌, ◌-◌, ◌++◌, length, false, IfOk, IfSome, drop, take};
ghost use Rattle.stmt_tokens.specs.Tokens as spec;

use crate::bytes::{digits_len, hex_len, is_bytes, is_letter, is_number, word_len};
use crate::keywords::keyword;
use crate::signs::{long_sign, sign_of};
use crate::token::{Kind, Sign, Token};
use lake_types::Words;
use lake_types::limits::MAX_NAME_BYTES;
use std::alloc::{AllocError, Global};

/// How many bytes there are to behind the closing quote.
fn closing(quote: u8, text: &[u8]) -> Option<usize>
    ensures value { result ≡ spec.closing quote false 0 text.now }
    ensures within { IfSome result (λ n. n ≤ length text.now) }
{
    let mut second = false;
    let mut n = 0;
    let mut rest = text;
    while let [b, more @ ..] = rest {
        if second && *b != quote {
            return Some(n);
        }
        second = !second && *b == quote;
        n += 1;
        rest = more;
    }
    if second { Some(n) } else { None }
}

fn undouble(alloc: Global, quote: u8, mut text: &[u8]) -> Result<Vec<u8>, AllocError>
    ensures { IfOk result (λ b. b.items ≡ spec.undouble quote false text.entry.now) }
{
    let mut plain = Vec::new(alloc);
    let mut second = false;
    while let [b, rest @ ..] = text {
        if !second {
            plain.push(*b)?;
        }
        second = !second && *b == quote;
        text = rest;
    }
    Ok(plain)
}

fn bad(alloc: Global) -> Result<Token, AllocError>
    ensures { IfOk result (λ token. token ≡ spec.bad) }
{
    Ok(Token {
        kind: Kind::Bad,
        text: Words::of(alloc, "")?,
    })
}

/// A token with this text, or none where the bytes aren't text.
#[tactic(auto, using(crate::proofs::TokenLemmas::text_tests))]
fn made(alloc: Global, kind: Kind, text: &[u8]) -> Result<Option<Token>, AllocError>
    ensures { IfOk result (λ token. token ≡ spec.made kind text.now) }
{
    match str::from_utf8(text) {
        Ok(text) => Ok(Some(Token {
            kind,
            text: Words::of(alloc, text)?,
        })),
        Err(_) => Ok(None),
    }
}

/// The first byte and so many more.
fn run_of(alloc: Global, b: u8, rest: &[u8], len: usize) -> Result<Vec<u8>, AllocError>
    requires { len ≤ length rest.now }
    ensures { IfOk result (λ run. run.items ≡ b ∷ take len rest.now) }
{
    let mut bytes = Vec::new(alloc);
    bytes.push(b)?;
    bytes.extend_from_slice(rest.split_at(len).0)?;
    Ok(bytes)
}

/// The token, which takes so many bytes of the rest; a bad one takes them all.
fn taken(
    alloc: Global,
    token: Option<Token>,
    len: usize,
    rest: &[u8],
) -> Result<(Token, usize), AllocError>
    requires { len ≤ length rest.now }
    ensures value { IfOk result (λ token_and. token_and ≡ spec.taken token len rest.now) }
    ensures within { IfOk result (λ token_and. token_and.1 ≤ length rest.now) }
{
    match token {
        Some(token) => Ok((token, len)),
        None => Ok((bad(alloc)?, rest.len())),
    }
}

fn word_at(alloc: Global, b: u8, rest: &[u8]) -> Result<(Token, usize), AllocError>
    ensures value { IfOk result (λ token. token ≡ spec.word_at b rest.now) }
    ensures within { IfOk result (λ token. token.1 ≤ length rest.now) }
{
    let len = word_len(rest);
    let text = run_of(alloc, b, rest, len)?;
    let token = if text.len() <= MAX_NAME_BYTES {
        made(alloc, keyword(text.as_slice()), text.as_slice())?
    } else {
        None
    };
    taken(alloc, token, len, rest)
}

fn number_at(alloc: Global, b: u8, rest: &[u8]) -> Result<(Token, usize), AllocError>
    ensures value { IfOk result (λ token. token ≡ spec.number_at b rest.now) }
    ensures within { IfOk result (λ token. token.1 ≤ length rest.now) }
{
    let len = digits_len(rest);
    let text = run_of(alloc, b, rest, len)?;
    let token = made(alloc, Kind::Number, text.as_slice())?;
    taken(alloc, token, len, rest)
}

fn text_at(alloc: Global, rest: &[u8]) -> Result<(Token, usize), AllocError>
    ensures value { IfOk result (λ token. token ≡ spec.text_at rest.now) }
    ensures within { IfOk result (λ token. token.1 ≤ length rest.now) }
{
    let Some(len) = closing(b'\'', rest) else {
        return taken(alloc, None, 0, rest);
    };
    let text = undouble(alloc, b'\'', rest.split_at(len.saturating_sub(1)).0)?;
    let token = made(alloc, Kind::Text, text.as_slice())?;
    taken(alloc, token, len, rest)
}

fn quoted_at(alloc: Global, rest: &[u8]) -> Result<(Token, usize), AllocError>
    ensures value { IfOk result (λ token. token ≡ spec.quoted_at rest.now) }
    ensures within { IfOk result (λ token. token.1 ≤ length rest.now) }
{
    let Some(len) = closing(b'"', rest) else {
        return taken(alloc, None, 0, rest);
    };
    let text = undouble(alloc, b'"', rest.split_at(len.saturating_sub(1)).0)?;
    let token = if 1 <= text.len() && text.len() <= MAX_NAME_BYTES {
        made(alloc, Kind::Quoted, text.as_slice())?
    } else {
        None
    };
    taken(alloc, token, len, rest)
}

fn plain(alloc: Global, sign: Sign) -> Result<Token, AllocError>
    ensures { IfOk result (λ token. token ≡ spec.plain sign) }
{
    Ok(Token {
        kind: Kind::Sign(sign),
        text: Words::of(alloc, "")?,
    })
}

fn bytes_at(alloc: Global, rest: &[u8]) -> Result<(Token, usize), AllocError>
    requires { spec.hex_len (drop 1 rest.now) + 2 ≤ length rest.now }
    ensures value { IfOk result (λ token. token ≡ spec.bytes_at rest.now) }
    ensures within { IfOk result (λ token. token.1 ≤ length rest.now) }
{
    let digits = rest.split_at(1).1;
    let len = hex_len(digits);
    let token = made(alloc, Kind::Bytes, digits.split_at(len).0)?;
    taken(alloc, token, len + 2, rest)
}

fn short_sign_at(alloc: Global, b: u8, rest: &[u8]) -> Result<(Token, usize), AllocError>
    ensures value { IfOk result (λ token. token ≡ spec.short_sign_at b rest.now) }
    ensures within { IfOk result (λ token. token.1 ≤ length rest.now) }
{
    let token = match sign_of(b) {
        Some(sign) => Some(plain(alloc, sign)?),
        None => None,
    };
    taken(alloc, token, 0, rest)
}

fn sign_at(alloc: Global, b: u8, rest: &[u8]) -> Result<(Token, usize), AllocError>
    ensures value { IfOk result (λ token. token ≡ spec.sign_at b rest.now) }
    ensures within { IfOk result (λ token. token.1 ≤ length rest.now) }
{
    match long_sign(b, rest) {
        Some(sign) => Ok((plain(alloc, sign)?, 1)),
        None => short_sign_at(alloc, b, rest),
    }
}

/// The token that begins with this byte, and how many bytes of the rest it takes.
pub fn token_at(alloc: Global, b: u8, rest: &[u8]) -> Result<(Token, usize), AllocError>
    ensures value { IfOk result (λ token. token ≡ spec.token_at b rest.now) }
    ensures within { IfOk result (λ token. token.1 ≤ length rest.now) }
{
    if is_bytes(b, rest) {
        return bytes_at(alloc, rest);
    }
    if is_letter(b) {
        return word_at(alloc, b, rest);
    }
    if is_number(b, rest) {
        return number_at(alloc, b, rest);
    }
    match b {
        b'\'' => text_at(alloc, rest),
        b'"' => quoted_at(alloc, rest),
        _ => sign_at(alloc, b, rest),
    }
}
