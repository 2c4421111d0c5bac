ghost use Rattle.std.specs.Prelude.{◌≡◌, IfOk};

use crate::lists::Copied;
use crate::value::Value;
use crate::words::Words;
use sqlite_items::{Boxed, Items};
use std::alloc::{AllocError, Global};

/// A comparison of a cell with a literal.
#[derive(Clone, Copy, Debug, PartialEq, Eq)]
pub enum Op {
    Eq,
    Ne,
    Lt,
    Le,
    Gt,
    Ge,
}

/// The parts of a test, in order.
pub type PredList = Items<Pred>;

/// A test of a row. An `And` without parts is true, and an `Or` without parts is false.
#[derive(Debug, Drop)]
pub enum Pred {
    Compare { name: Words, op: Op, value: Value },
    IsNull { name: Words },
    NotNull { name: Words },
    Not(Boxed<Pred>),
    And(PredList),
    Or(PredList),
}

impl Pred {
    /// An equal test.
    #[cycle(copy_pred)]
    pub fn copy(&self, alloc: Global) -> Result<Pred, AllocError>
        ensures { IfOk result (λ copy. copy ≡ self.now) }
    {
        match self {
            Pred::Compare { name, op, value } => Ok(Pred::Compare {
                name: name.copy(alloc)?,
                op: *op,
                value: value.copy(alloc)?,
            }),
            Pred::IsNull { name } => Ok(Pred::IsNull {
                name: name.copy(alloc)?,
            }),
            Pred::NotNull { name } => Ok(Pred::NotNull {
                name: name.copy(alloc)?,
            }),
            Pred::Not(part) => Ok(Pred::Not(Boxed::new(alloc, part.get().copy(alloc)?)?)),
            Pred::And(parts) => Ok(Pred::And(copy_parts(alloc, parts.as_slice())?)),
            Pred::Or(parts) => Ok(Pred::Or(copy_parts(alloc, parts.as_slice())?)),
        }
    }
}

#[cycle(copy_pred)]
fn copy_parts(alloc: Global, parts: &[Pred]) -> Result<PredList, AllocError>
    ensures { IfOk result (λ copy. copy ≡ parts.now) }
{
    let mut copy = Items::new(alloc);
    for part in parts {
        copy.push(part.copy(alloc)?)?;
    }
    Ok(copy)
}
