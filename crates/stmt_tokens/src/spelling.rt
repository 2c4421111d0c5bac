ghost use Rattle.std.specs.Prelude.{◌≡◌, ◌∷◌, ◌++◌, ◌<◌, [], length, IfOk, IfSome, OnOk, None};
ghost use Rattle.std.specs.String.{string_bytes};
ghost use Rattle.lake_types.specs.Texts.{all_doubled, quoted_by};
ghost use Rattle.stmt_tokens.specs.Spelled as spec;

use crate::token::{Kind, Sign, Token};
use lake_types::Words;
use std::alloc::{AllocError, Global};

fn sign_text(sign: Sign) -> &'static str
    ensures { result.now ≡ spec.sign_text sign }
{
    match sign {
        Sign::LeftParen => "(",
        Sign::RightParen => ")",
        Sign::Comma => ",",
        Sign::Dot => ".",
        Sign::Semicolon => ";",
        Sign::Star => "*",
        Sign::Eq => "=",
        Sign::Ne => "<>",
        Sign::Lt => "<",
        Sign::Le => "<=",
        Sign::Gt => ">",
        Sign::Ge => ">=",
        Sign::Arrow => "=>",
    }
}

/// The text before and after its first such character.
fn at_first(mark: char, text: &str) -> Option<(&str, &str)>
    requires { mark < 128 }
    ensures doubled { IfSome result (λ x. all_doubled mark text.now ≡ x.0.now ++ mark ∷ mark ∷ all_doubled mark x.1.now) }
    ensures shorter { IfSome result (λ x. length x.1.now < length text.now) }
    ensures none { result ≡ None → all_doubled mark text.now ≡ text.now }
{
    text.split_once(mark)
}

/// Adds a text with each such character doubled.
fn put_doubled(line: &mut String, mark: char, pair: &str, text: &str) -> Result<(), AllocError>
    requires ascii { mark < 128 }
    requires pair { pair.now ≡ mark ∷ mark ∷ [] }
    ensures { OnOk result (string_bytes line.new ≡ string_bytes line.old ++ all_doubled mark text.now) }
{
    let mut rest = text;
    while let Some((before, after)) = at_first(mark, rest) {
        line.push_str(before)?;
        line.push_str(pair)?;
        rest = after;
    }
    line.push_str(rest)?;
    Ok(())
}

fn put_name(line: &mut String, name: &str) -> Result<(), AllocError>
    ensures { OnOk result (string_bytes line.new ≡ string_bytes line.old ++ quoted_by 34 name.now) }
{
    line.push_str("\"")?;
    put_doubled(line, '"', "\"\"", name)?;
    line.push_str("\"")?;
    Ok(())
}

fn put_text(line: &mut String, text: &str) -> Result<(), AllocError>
    ensures { OnOk result (string_bytes line.new ≡ string_bytes line.old ++ quoted_by 39 text.now) }
{
    line.push_str("'")?;
    put_doubled(line, '\'', "''", text)?;
    line.push_str("'")?;
    Ok(())
}

fn put_bytes(line: &mut String, digits: &str) -> Result<(), AllocError>
    ensures { OnOk result (string_bytes line.new ≡ string_bytes line.old ++ spec.spelling_of Kind.Bytes digits.now) }
{
    line.push_str("x'")?;
    line.push_str(digits)?;
    line.push_str("'")?;
    Ok(())
}

fn put(line: &mut String, token: &Token) -> Result<(), AllocError>
    ensures { OnOk result (string_bytes line.new ≡ string_bytes line.old ++ spec.spelling token.now) }
{
    let text = token.text.as_str();
    match token.kind {
        Kind::Quoted => put_name(line, text),
        Kind::Text => put_text(line, text),
        Kind::Bytes => put_bytes(line, text),
        Kind::Sign(sign) => line.push_str(sign_text(sign)),
        Kind::Keyword(_) | Kind::Word | Kind::Number | Kind::Bad => line.push_str(text),
    }
}

/// The line of these tokens, with a blank behind each.
pub fn spell(alloc: Global, tokens: &[Token]) -> Result<Words, AllocError>
    ensures { IfOk result (λ line. line ≡ spec.spelled tokens.now) }
{
    let mut line = String::new(alloc);
    let mut rest = tokens;
    while let [token, more @ ..] = rest {
        put(&mut line, token)?;
        line.push_str(" ")?;
        rest = more;
    }
    Ok(Words::from_string(line))
}
