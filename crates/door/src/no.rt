use lake_model::Counter;
use lake_types::Clash;
use thiserror::Error;

/// Why no transaction was begun.
#[derive(Debug, Drop, Error)]
pub enum BeginNo {
    /// The snapshot isn't kept; those from `first` to `head` are.
    #[error("snapshots are kept from {first} to {head}")]
    NotKept { first: u64, head: u64 },
    #[error("a counter is spent")]
    Spent { counter: Counter },
    #[error("no memory")]
    Memory,
}

/// Why a transaction was not committed. A clash ends it; after all else it is open as before.
#[derive(Debug, Drop, Error)]
pub enum CommitNo {
    #[error("a commit since its base conflicts")]
    Clash(Clash),
    #[error("a counter is spent")]
    Spent { counter: Counter },
    /// The keeper failed. Its count of faults rose.
    #[error("the keeper failed")]
    KeeperFault,
    #[error("no memory")]
    Memory,
}

/// Why a call was not entered.
#[derive(Debug, Drop, Error)]
pub enum SpentNo {
    #[error("a counter is spent")]
    Spent { counter: Counter },
    #[error("no memory")]
    Memory,
}

/// Why the snapshots were not told.
#[derive(Debug, Drop, Error)]
pub enum ListNo {
    #[error("a counter is spent")]
    Spent { counter: Counter },
    #[error("no memory")]
    Memory,
}
