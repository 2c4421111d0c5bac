ghost use Rattle.std.specs.Prelude.{◌≡◌, ◌≤◌, ◌<◌, ◌+◌, [], OnOk, option_map};
ghost use Rattle.std.specs.Option.{option_copied};
ghost use Rattle.cat_tables.specs.Table.{LacksKey, put, row_of, without};
ghost use Rattle.cat_view.specs.Held.{held_in, name_by};

use cat_tables::{Keyed, KeyedTable};
use file_disk::Held;
use lake_types::{NoMemory, Words};
use std::alloc::Global;
use std::cmp::Ordering;

/// A file that the catalogue may name.
#[derive(Drop)]
pub struct HeldFile<F: Held> {
    pub file: F,
}

impl<F: Held> Keyed for HeldFile<F> {
    type Key = Words;

    ghost parts = { λ k. k };

    ghost key = { λ h. F.name h.file };

    fn compare_key(&self, other: &Words) -> Ordering {
        self.file
            .name()
            .as_str()
            .as_bytes()
            .cmp(other.as_str().as_bytes())
    }

    fn compare_row(&self, other: &HeldFile<F>) -> Ordering {
        self.file
            .name()
            .as_str()
            .as_bytes()
            .cmp(other.file.name().as_str().as_bytes())
    }
}

/// The files that are held, by name, each name once.
#[derive(Drop)]
pub struct HeldFiles<F: Held> {
    files: KeyedTable<HeldFile<F>>,
}

impl<F: Held> HeldFiles<F> {
    /// No files. It takes no memory.
    pub fn new(alloc: Global) -> HeldFiles<F>
        ensures { (held_in result).rows ≡ [] }
    {
        HeldFiles {
            files: KeyedTable::new(alloc),
        }
    }

    /// Makes room for more files. Those that are held stay, whatever the answer.
    pub fn reserve(&mut self, more: usize) -> Result<(), NoMemory>
        ensures files { (held_in self.new).rows ≡ (held_in self.old).rows }
        ensures room { OnOk result (more ≤ (held_in self.new).room) }
        ensures kept { (held_in self.old).room ≤ (held_in self.new).room }
    {
        self.files.reserve(more)
    }

    /// Holds one more file, in room that is there. It takes no memory.
    pub fn add(&mut self, file: F)
        requires room { 0 < (held_in self.old).room }
        requires fresh { LacksKey (name_by F.name) (F.name file) (held_in self.old).rows }
        ensures files { (held_in self.new).rows ≡ put (name_by F.name) (record { file = file }) (held_in
            self.old).rows }
        ensures room { (held_in self.old).room ≤ (held_in self.new).room + 1 }
    {
        self.files.put_reserved(HeldFile { file });
    }

    /// The held file of a name.
    pub fn get(&self, name: &Words) -> Option<&F>
        ensures { option_copied result ≡ option_map (λ h. h.file) (row_of (name_by F.name) name.now (held_in
            self.now).rows) }
    {
        match self.files.get(name) {
            Some(held) => Some(&held.file),
            None => None,
        }
    }

    /// Takes the file of a name out, if it is held.
    pub fn remove(&mut self, name: &Words) -> Option<F>
        ensures file { result ≡ option_map (λ h. h.file) (row_of (name_by F.name) name.now (held_in self.old).rows) }
        ensures files { (held_in self.new).rows ≡ without (name_by F.name) name.now (held_in self.old).rows }
        ensures room { (held_in self.old).room ≤ (held_in self.new).room }
    {
        match self.files.take(name) {
            Some(HeldFile { file }) => Some(file),
            None => None,
        }
    }
}
