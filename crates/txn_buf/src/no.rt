ghost use Rattle.std.specs.Prelude.{◌≡◌};
ghost use Rattle.txn_buf.specs.declared.no.TxnNo.TheVariants.{Memory};

use lake_model::Counter;
use lake_types::{TableName, Words};
use std::alloc::{AllocError, AllocFailed};
use thiserror::Error;

/// Why a statement adds nothing to its transaction.
#[derive(Debug, Drop, Error)]
pub enum TxnNo {
    #[error("the transaction only reads")]
    ReadOnly,
    /// A compaction stands alone in its transaction.
    #[error("a compaction and other changes")]
    Mixed,
    #[error("no schema has the name")]
    NoSchema { name: Words },
    #[error("no table has the name")]
    NoTable { table: TableName },
    #[error("no column has the name")]
    NoColumn { name: Words },
    #[error("the name is used")]
    NameUsed { name: Words },
    #[error("the schema has tables")]
    NotEmpty { name: Words },
    #[error("the column takes no NULL")]
    NotNull { name: Words },
    #[error("the column has another type")]
    WrongType { name: Words },
    #[error("the column's type does not promote to this one")]
    NoPromotion { name: Words },
    #[error("a table has at least one column")]
    LastColumn,
    #[error("{got} cells where the table has {want} columns")]
    Arity { want: u64, got: u64 },
    #[error("too many columns")]
    ManyColumns,
    /// The rows that the transaction makes weigh too much.
    #[error("the transaction is too large")]
    TooLarge,
    #[error("a counter is spent")]
    Spent { counter: Counter },
    #[error("no memory")]
    Memory,
}

impl From<AllocError> for TxnNo {
    ghost from_gives = { λ _ no. no ≡ Memory };

    fn from(_error: AllocError) -> TxnNo {
        TxnNo::Memory
    }
}

impl<T: Drop> From<AllocFailed<T>> for TxnNo {
    ghost from_gives = { λ _ no. no ≡ Memory };

    fn from(_error: AllocFailed<T>) -> TxnNo {
        TxnNo::Memory
    }
}
