ghost use Rattle.std.specs.Prelude.{◌≡◌, IfOk};

use lake_types::{Copied, Op, Value};
use sqlite_items::{Boxed, Items};
use std::alloc::{AllocError, Global};

/// The parts of a bound test, in order.
pub type BoundList = Items<Bound>;

/// A test of a row, by the field ids of its columns. An `And` without parts is true, and an `Or` without
/// parts is false.
#[derive(Debug, Drop)]
pub enum Bound {
    Compare { field: u32, op: Op, value: Value },
    IsNull { field: u32 },
    NotNull { field: u32 },
    Not(Boxed<Bound>),
    And(BoundList),
    Or(BoundList),
}

impl Bound {
    /// An equal test.
    #[cycle(copy_bound)]
    pub fn copy(&self, alloc: Global) -> Result<Bound, AllocError>
        ensures { IfOk result (λ copy. copy ≡ self.now) }
    {
        match self {
            Bound::Compare { field, op, value } => Ok(Bound::Compare {
                field: *field,
                op: *op,
                value: value.copy(alloc)?,
            }),
            Bound::IsNull { field } => Ok(Bound::IsNull { field: *field }),
            Bound::NotNull { field } => Ok(Bound::NotNull { field: *field }),
            Bound::Not(part) => Ok(Bound::Not(Boxed::new(alloc, part.get().copy(alloc)?)?)),
            Bound::And(parts) => Ok(Bound::And(copy_parts(alloc, parts.as_slice())?)),
            Bound::Or(parts) => Ok(Bound::Or(copy_parts(alloc, parts.as_slice())?)),
        }
    }
}

#[cycle(copy_bound)]
fn copy_parts(alloc: Global, parts: &[Bound]) -> Result<BoundList, AllocError>
    ensures { IfOk result (λ copy. copy ≡ parts.now) }
{
    let mut copy = Items::new(alloc);
    for part in parts {
        copy.push(part.copy(alloc)?)?;
    }
    Ok(copy)
}
