ghost use Rattle.std.specs.Prelude.{◌≡◌, ◌≢◌, ◌++◌, ◌∷◌, ◌<◌, ℕ, List, None, true, IfOk, IfSome, OnOk};
ghost use Rattle.std.specs.String.{string_bytes};
ghost use Rattle.lake_types.specs.Texts.{quoted};
ghost use Rattle.cat_changes.specs.Reading as spec;

use lake_types::Words;
use std::alloc::{AllocError, Global};

/// The text before and behind the first such sign.
pub fn cut(text: &str, sign: char) -> Option<(&str, &str)>
    requires { sign < 128 }
    ensures some { IfSome result (λ x.
        (text.now ≡ x.0.now ++ sign ∷ x.1.now) × (spec.lacks sign x.0.now ≡ true)) }
    ensures none { result ≡ None → spec.lacks sign text.now ≡ true }
{
    text.split_once(sign)
}

/// The text behind such a sign at the front.
pub fn behind(text: &str, sign: char) -> Option<&str>
    requires { sign < 128 }
    ensures some { IfSome result (λ x. text.now ≡ sign ∷ x.now) }
    ensures none { result ≡ None → (rest : List ℕ) → text.now ≢ sign ∷ rest }
{
    text.strip_prefix(sign)
}

/// The name in double quotes at the front of the text, and what stands behind it.
pub fn quoted_at(alloc: Global, text: &str) -> Result<Option<(Words, &str)>, AllocError>
    ensures { IfOk result (λ found. spec.Finds found (spec.quoted_in text.now)) }
{
    let Some(mut rest) = behind(text, '"') else {
        return Ok(None);
    };
    let mut name = String::new(alloc);
    while let Some((before, after)) = cut(rest, '"') {
        name.push_str(before)?;
        let Some(more) = behind(after, '"') else {
            return Ok(Some((Words::from_string(name), after)));
        };
        name.push('"')?;
        rest = more;
    }
    Ok(None)
}

/// Adds the name in double quotes, inner ones doubled.
pub fn push_quoted(text: &mut String, name: &str) -> Result<(), AllocError>
    ensures { OnOk result (string_bytes text.new ≡ string_bytes text.old ++ quoted name.now) }
{
    text.push('"')?;
    let mut rest = name;
    while let Some((before, after)) = cut(rest, '"') {
        text.push_str(before)?;
        text.push_str("\"\"")?;
        rest = after;
    }
    text.push_str(rest)?;
    text.push('"')?;
    Ok(())
}
