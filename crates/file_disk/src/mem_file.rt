ghost use Rattle.std.specs.Prelude.{◌≡◌, ◌++◌, IfOk, OnOk, OnErr};
ghost use Rattle.std.specs.Arc.{arc_value};

use crate::disk::Held;
use lake_types::{Copied, NoMemory, Words};
use std::alloc::Global;
use std::marker::Model;
use std::sync::Arc;

/// A file of a disk in memory. Its copies share its bytes.
#[derive(Debug, Drop)]
pub struct MemFile {
    pub(crate) name: Words,
    pub(crate) part: u8,
    pub(crate) bytes: Arc<Vec<u8>>,
}

impl Model for MemFile {
    ghost use Rattle.std.specs.Arc.{arc_value};
    ghost use Rattle.file_disk.specs.Memory.{StoredFile};

    ghost Value = { StoredFile };

    ghost view = { λ f. record { name = f.name; part = f.part; bytes = (arc_value f.bytes).items } };
}

impl MemFile {
    ghost use Rattle.std.specs.Prelude.{◌<◌};

    /// How many hold the file's bytes: the folder, this value and each copy of it. They share them.
    pub fn holders(&self) -> u64
        ensures { 0 < result }
    {
        Arc::strong_count(&self.bytes) as u64
    }
}

impl Held for MemFile {
    ghost use Rattle.std.specs.Prelude.{length, Some, refl};

    ghost name = { λ f. f.name };

    ghost size = { λ f. length f.bytes };

    ghost part = { λ f. f.part };

    ghost bytes = { λ f. Some f.bytes };

    ghost size_is = { λ f. refl };

    fn name(&self) -> &Words {
        &self.name
    }

    fn size(&self) -> u64 {
        self.bytes.len() as u64
    }

    fn copy(&self, alloc: Global) -> Result<MemFile, NoMemory> {
        Ok(MemFile {
            name: self.name.copy(alloc)?,
            part: self.part,
            bytes: Arc::try_clone(&self.bytes)?,
        })
    }
}

/// A file of a disk in memory that is being written.
#[derive(Debug, Drop)]
pub struct MemDraft {
    pub(crate) name: Words,
    pub(crate) bytes: Arc<Vec<u8>>,
    /// A further handle of the bytes, for the folder, so that `sync` takes no memory.
    pub(crate) spare: Arc<Vec<u8>>,
}

impl Model for MemDraft {
    ghost use Rattle.std.specs.Prelude.{◌≡◌};
    ghost use Rattle.std.specs.Arc.{arc_value};
    ghost use Rattle.file_disk.specs.Memory.{StoredDraft};

    ghost Value = { StoredDraft };

    ghost view = { λ d. record { name = d.name; bytes = (arc_value d.bytes).items } };

    ghost invariant = { λ d. (arc_value d.spare).items ≡ (arc_value d.bytes).items };
}

/// The bytes with a piece behind them, to be shared.
pub fn joined(alloc: Global, bytes: &[u8], piece: &[u8]) -> Result<Arc<Vec<u8>>, NoMemory>
    ensures { IfOk result (λ joined. (arc_value joined).items ≡ bytes.now ++ piece.now) }
{
    let mut joined = Vec::with_capacity(alloc, bytes.len() + piece.len())?;
    joined.extend_from_slice(bytes)?;
    joined.extend_from_slice(piece)?;
    let joined = Arc::new(alloc, joined)?;
    Ok(joined)
}

impl MemDraft {
    /// A draft with these bytes.
    pub(crate) fn new(name: Words, bytes: Arc<Vec<u8>>) -> Result<MemDraft, NoMemory>
        ensures { IfOk result (λ draft. draft ≡ record { name = name; bytes = (arc_value bytes).items }) }
    {
        let spare = Arc::try_clone(&bytes)?;
        Ok(MemDraft { name, bytes, spare })
    }

    /// Adds a piece, and answers a handle of all bytes.
    pub(crate) fn grow(&mut self, alloc: Global, piece: &[u8]) -> Result<Arc<Vec<u8>>, NoMemory>
        ensures ok { OnOk result (self.new ≡ record { name = self.old.name; bytes = self.old.bytes ++ piece.now }) }
        ensures shared { IfOk result (λ bytes. (arc_value bytes).items ≡ self.old.bytes ++ piece.now) }
        ensures err { OnErr result (self.new ≡ self.old) }
    {
        let bytes = joined(alloc, self.bytes.as_slice(), piece)?;
        let spare = Arc::try_clone(&bytes)?;
        let shown = Arc::try_clone(&bytes)?;
        self.bytes = bytes;
        self.spare = spare;
        Ok(shown)
    }
}
