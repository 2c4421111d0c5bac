use crate::answer::Counter;
use crate::change::ChangeList;
use lake_types::{Clash, Copied, Listed, Words};
use std::alloc::{AllocError, Global};

/// What a session has open: the version that its transaction began with, and whether it may not write.
#[derive(Clone, Copy, Debug, PartialEq, Eq)]
pub struct Open {
    pub base: u64,
    pub read_only: bool,
}

/// A call of the catalogue, which takes effect at one moment. `files` is how many files a commit has staged.
#[derive(Debug, Drop)]
pub enum Call {
    Begin,
    BeginAt { n: u64 },
    Commit { own: ChangeList, files: u64 },
    Rollback,
    Expire { n: u64 },
    Clean,
    List,
}

impl Copied for Call {
    fn copy(&self, alloc: Global) -> Result<Call, AllocError> {
        match self {
            Call::Begin => Ok(Call::Begin),
            Call::BeginAt { n } => Ok(Call::BeginAt { n: *n }),
            Call::Commit { own, files } => Ok(Call::Commit {
                own: own.copy(alloc)?,
                files: *files,
            }),
            Call::Rollback => Ok(Call::Rollback),
            Call::Expire { n } => Ok(Call::Expire { n: *n }),
            Call::Clean => Ok(Call::Clean),
            Call::List => Ok(Call::List),
        }
    }
}

/// A kept snapshot, with the text of what it changed.
#[derive(Debug, Drop)]
pub struct SnapRow {
    pub snapshot: u64,
    pub changes: Words,
}

impl Copied for SnapRow {
    fn copy(&self, alloc: Global) -> Result<SnapRow, AllocError> {
        Ok(SnapRow {
            snapshot: self.snapshot,
            changes: self.changes.copy(alloc)?,
        })
    }
}

pub type SnapRows = Listed<SnapRow>;

/// Why a call was lost, which leaves the lake as it was.
#[derive(Clone, Copy, Debug, PartialEq, Eq)]
pub enum Loss {
    Memory,
    Keeper,
    Disk,
    Spent { counter: Counter },
}

impl Copied for Loss {
    fn copy(&self, _alloc: Global) -> Result<Loss, AllocError> {
        Ok(*self)
    }
}

/// What a call replies.
#[derive(Debug, Drop)]
pub enum CallReply {
    Base { n: u64 },
    NotKept { first: u64, head: u64 },
    Snapshot { n: u64 },
    Clash(Clash),
    Done,
    Pinned { base: u64 },
    Listed(SnapRows),
    Lost { cause: Loss },
}

impl Copied for CallReply {
    fn copy(&self, alloc: Global) -> Result<CallReply, AllocError> {
        match self {
            CallReply::Base { n } => Ok(CallReply::Base { n: *n }),
            CallReply::NotKept { first, head } => Ok(CallReply::NotKept {
                first: *first,
                head: *head,
            }),
            CallReply::Snapshot { n } => Ok(CallReply::Snapshot { n: *n }),
            CallReply::Clash(clash) => Ok(CallReply::Clash(clash.copy(alloc)?)),
            CallReply::Done => Ok(CallReply::Done),
            CallReply::Pinned { base } => Ok(CallReply::Pinned { base: *base }),
            CallReply::Listed(rows) => Ok(CallReply::Listed(rows.copy(alloc)?)),
            CallReply::Lost { cause } => Ok(CallReply::Lost { cause: *cause }),
        }
    }
}

/// A call of a session, with its reply.
#[derive(Debug, Drop)]
pub struct Entry {
    pub session: u8,
    pub call: Call,
    pub reply: CallReply,
}

impl Copied for Entry {
    fn copy(&self, alloc: Global) -> Result<Entry, AllocError> {
        Ok(Entry {
            session: self.session,
            call: self.call.copy(alloc)?,
            reply: self.reply.copy(alloc)?,
        })
    }
}
