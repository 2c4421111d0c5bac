ghost use Rattle.std.specs.Prelude.{◌≡◌, ◌++◌, List, OnOk};
ghost use Rattle.stmt_tokens.specs.declared.token.Token.{Token};
ghost use Rattle.stmt_tokens.specs.declared.token.Kind.TheVariants as k;
ghost use Rattle.stmt_tokens.specs.declared.token.Sign.TheVariants.{Comma};
ghost use Rattle.stmt_text.specs.Printed.{joined, others};

use crate::draft::Draft;
use std::alloc::{AllocError, Global};
use stmt_tokens::Sign;

/// What is printed as tokens.
pub trait Put {
    ghost tokens: { Self → List Token };

    /// Adds its tokens.
    fn put(&self, alloc: Global, line: &mut Draft) -> Result<(), AllocError>
        ensures { OnOk result (line.new.tokens ≡ line.old.tokens ++ tokens self.now) };
}

fn put_others<T: Put>(alloc: Global, line: &mut Draft, mut items: &[T]) -> Result<(), AllocError>
    ensures { OnOk result (line.new.tokens ≡ line.old.tokens ++ others (k.Sign Comma) T.tokens items.entry.now) }
{
    while let [item, rest @ ..] = items {
        line.sign(alloc, Sign::Comma)?;
        item.put(alloc, line)?;
        items = rest;
    }
    Ok(())
}

/// Adds items with commas between them.
pub fn put_list<T: Put>(alloc: Global, line: &mut Draft, items: &[T]) -> Result<(), AllocError>
    ensures { OnOk result (line.new.tokens ≡ line.old.tokens ++ joined (k.Sign Comma) T.tokens items.now) }
{
    match items {
        [first, rest @ ..] => {
            first.put(alloc, line)?;
            put_others(alloc, line, rest)
        }
        [] => Ok(()),
    }
}
