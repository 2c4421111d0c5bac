ghost use Rattle.std.specs.Prelude.{◌≡◌};
ghost use Rattle.stmt_tokens.specs.Tokens as spec;

use crate::token::Sign;

/// The sign of one byte.
pub fn sign_of(b: u8) -> Option<Sign>
    ensures { result ≡ spec.sign_of b }
{
    match b {
        b'(' => Some(Sign::LeftParen),
        b')' => Some(Sign::RightParen),
        b',' => Some(Sign::Comma),
        b'.' => Some(Sign::Dot),
        b';' => Some(Sign::Semicolon),
        b'*' => Some(Sign::Star),
        b'=' => Some(Sign::Eq),
        b'<' => Some(Sign::Lt),
        b'>' => Some(Sign::Gt),
        _ => None,
    }
}

fn long_sign_of(b: u8, c: u8) -> Option<Sign>
    ensures { result ≡ spec.long_sign_of b c }
{
    match (b, c) {
        (b'<', b'>') | (b'!', b'=') => Some(Sign::Ne),
        (b'<', b'=') => Some(Sign::Le),
        (b'>', b'=') => Some(Sign::Ge),
        (b'=', b'>') => Some(Sign::Arrow),
        _ => None,
    }
}

/// The sign of two bytes.
pub fn long_sign(b: u8, rest: &[u8]) -> Option<Sign>
    ensures { result ≡ spec.long_sign b rest.now }
{
    match rest {
        [c, ..] => long_sign_of(b, *c),
        [] => None,
    }
}
