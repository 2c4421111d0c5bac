ghost use Rattle.std.specs.Prelude.{◌≡◌, ◌++◌, ◌∷◌, [], OnOk, map};
ghost use Rattle.stmt_text.specs.Printed as spec;
ghost use Rattle.stmt_text.specs.declared.predicate.Shape.TheVariants as shapes;

use crate::draft::Draft;
use crate::names::put_literal;
use lake_types::{Op, Pred, Value, Words};
use std::alloc::{AllocError, Global};
use stmt_tokens::{Keyword, Kind, Sign};

/// What a test is to those around it: one test, a chain of ANDs, or a chain of ORs.
#[derive(Clone, Copy, Debug, PartialEq, Eq)]
pub enum Shape {
    One,
    All,
    Any,
}

fn shape_of(test: &Pred) -> Shape
    ensures { result ≡ (spec.shown test.now).shape }
{
    match test {
        Pred::And(_) => Shape::All,
        Pred::Or(_) => Shape::Any,
        _ => Shape::One,
    }
}

fn op_sign(op: Op) -> Sign
    ensures { result ≡ spec.op_sign op }
{
    match op {
        Op::Eq => Sign::Eq,
        Op::Ne => Sign::Ne,
        Op::Lt => Sign::Lt,
        Op::Le => Sign::Le,
        Op::Gt => Sign::Gt,
        Op::Ge => Sign::Ge,
    }
}

fn put_comparison(
    alloc: Global,
    line: &mut Draft,
    name: &Words,
    op: Op,
    value: &Value,
) -> Result<(), AllocError>
    ensures { OnOk result (line.new.tokens ≡ line.old.tokens ++ spec.comparison_tokens name.now op value.now) }
{
    line.name(alloc, name)?;
    line.sign(alloc, op_sign(op))?;
    put_literal(alloc, line, value)
}

fn put_is_null(alloc: Global, line: &mut Draft, name: &Words) -> Result<(), AllocError>
    ensures { OnOk result (line.new.tokens ≡ line.old.tokens ++ spec.is_null_tokens name.now) }
{
    line.name(alloc, name)?;
    line.word(alloc, Keyword::Is)?;
    line.word(alloc, Keyword::Null)
}

fn put_not_null(alloc: Global, line: &mut Draft, name: &Words) -> Result<(), AllocError>
    ensures { OnOk result (line.new.tokens ≡ line.old.tokens ++ spec.not_null_tokens name.now) }
{
    line.name(alloc, name)?;
    line.word(alloc, Keyword::Is)?;
    line.word(alloc, Keyword::Not)?;
    line.word(alloc, Keyword::Null)
}

/// Whether what has this shape is put in parentheses, where this one is the weakest that may stand.
fn is_enclosed(most: Shape, inside: Shape) -> bool
    ensures { result ≡ spec.is_enclosed most inside }
{
    match (most, inside) {
        (Shape::All, Shape::Any) | (Shape::One, Shape::All | Shape::Any) => true,
        _ => false,
    }
}

/// Adds a test without parentheses around it.
#[cycle(put_pred)]
pub fn put_test(alloc: Global, line: &mut Draft, test: &Pred) -> Result<(), AllocError>
    ensures { OnOk result (line.new.tokens ≡ line.old.tokens ++ (spec.shown test.now).tokens) }
{
    match test {
        Pred::Compare { name, op, value } => put_comparison(alloc, line, name, *op, value),
        Pred::IsNull { name } => put_is_null(alloc, line, name),
        Pred::NotNull { name } => put_not_null(alloc, line, name),
        Pred::Not(part) => {
            line.word(alloc, Keyword::Not)?;
            put_part(alloc, line, Shape::One, part.get())
        }
        Pred::And(parts) => put_parts(alloc, line, Shape::One, Keyword::And, parts.as_slice()),
        Pred::Or(parts) => put_parts(alloc, line, Shape::All, Keyword::Or, parts.as_slice()),
    }
}

/// Adds a test, in parentheses where it binds more weakly than this shape.
#[cycle(put_pred)]
fn put_part(alloc: Global, line: &mut Draft, most: Shape, test: &Pred) -> Result<(), AllocError>
    ensures { OnOk result (line.new.tokens ≡ line.old.tokens ++ (spec.within most (spec.shown test.now)).tokens) }
{
    if !is_enclosed(most, shape_of(test)) {
        return put_test(alloc, line, test);
    }
    line.sign(alloc, Sign::LeftParen)?;
    put_test(alloc, line, test)?;
    line.sign(alloc, Sign::RightParen)
}

/// Adds tests with a word between them.
#[cycle(put_pred)]
fn put_parts(
    alloc: Global,
    line: &mut Draft,
    most: Shape,
    sep: Keyword,
    tests: &[Pred],
) -> Result<(), AllocError>
    ensures { OnOk result (line.new.tokens ≡ line.old.tokens ++ spec.chain_tokens (Kind.Keyword sep) (map (spec.within most) (map spec.shown tests.now))) }
{
    let mut is_first = true;
    for test in tests {
        if !is_first {
            line.word(alloc, sep)?;
        }
        put_part(alloc, line, most, test)?;
        is_first = false;
    }
    Ok(())
}
