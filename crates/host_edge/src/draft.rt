ghost use Rattle.std.specs.Prelude.{None};

use file_disk::Held;
use lake_types::{Copied, NoMemory, Words};
use std::alloc::Global;
use std::fs::File;
use std::marker::Model;

/// A whole file of the folder.
#[derive(Drop)]
pub struct HostFile {
    pub(crate) name: Words,
    pub(crate) size: u64,
}

impl Held for HostFile {
    ghost name = { λ f. f.name };

    ghost size = { λ f. f.size };

    ghost part = { λ _. 0 };

    ghost bytes = { λ _. None };

    ghost size_is = { λ _. tt };

    fn name(&self) -> &Words {
        &self.name
    }

    fn size(&self) -> u64 {
        self.size
    }

    fn copy(&self, alloc: Global) -> Result<HostFile, NoMemory> {
        Ok(HostFile {
            name: self.name.copy(alloc)?,
            size: self.size,
        })
    }
}

/// A file that is being written. Contracts see its name.
///
/// It is spoiled once an append or a sync has failed: nobody knows what it holds then, and a further sync of the
/// system can answer well all the same.
#[derive(Drop)]
pub struct HostDraft {
    pub(crate) name: Words,
    pub(crate) size: u64,
    pub(crate) file: File,
    pub(crate) is_spoiled: bool,
}

impl Model for HostDraft {
    ghost use Rattle.std.specs.Prelude.{List, ℕ};

    ghost Value = { List ℕ };

    ghost view = { λ d. d.name };
}
