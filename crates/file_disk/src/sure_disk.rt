ghost use Rattle.std.specs.Prelude.{◌≡◌, [], Option, Some, None, IsSome, true, option_map, IfOk, IfSome, OnOk};
ghost use Rattle.lake_io.specs.Causes.{raised};
ghost use Rattle.file_disk.specs.Folder.{Touches, MayBecomeAny};
ghost use Rattle.file_disk.specs.Memory.{folder_of};

use crate::disk::FileDisk;
use crate::entries::{
    Entry, copy_names, drop_entry, has_entry, place_of, put_entry, seal_entry, show_entry,
};
use crate::fault::DiskNo;
use crate::mem_file::{MemDraft, MemFile, joined};
use lake_types::{Copied, NoMemory, Words};
use std::alloc::Global;
use std::marker::Model;
use std::sync::Arc;

/// A disk in memory that never fails.
#[derive(Debug, Drop)]
pub struct SureDisk {
    part: u8,
    entries: Vec<Entry>,
    opens: u64,
}

impl Model for SureDisk {
    ghost use Rattle.file_disk.specs.Folder.{Rises};
    ghost use Rattle.file_disk.specs.Memory.{StoredPart, names_of};

    ghost Value = { StoredPart };

    ghost view = { λ d. record { part = d.part; all = d.entries.items; opens = d.opens } };

    ghost invariant = { λ d. Rises (names_of d.entries.items) };
}

impl SureDisk {
    ghost use Rattle.std.specs.Prelude.{false};
    ghost use Rattle.file_disk.specs.Calls.{AllHold, Plants};
    ghost use Rattle.file_disk.specs.Memory.{IsImage};

    /// An empty folder.
    pub fn new(alloc: Global) -> SureDisk
        ensures { result ≡ record { part = 0; all = []; opens = 0 } }
    {
        SureDisk::of_part(alloc, 0)
    }

    /// An empty part of a folder.
    pub(crate) fn of_part(alloc: Global, part: u8) -> SureDisk
        ensures { result ≡ record { part = part; all = []; opens = 0 } }
    {
        SureDisk {
            part,
            entries: Vec::new(alloc),
            opens: 0,
        }
    }

    /// How many reads were asked for.
    pub fn opens(&self) -> u64
        ensures { result ≡ self.now.opens }
    {
        self.opens
    }

    /// Whether the name is in this part.
    pub(crate) fn holds(&self, name: &Words) -> bool
        ensures absent { result ≡ false → folder_of self.now.all name.now ≡ None }
        ensures there { result ≡ true → IsSome (folder_of self.now.all name.now) }
    {
        has_entry(self.entries.as_slice(), name.as_str())
    }

    /// Counts a read that was asked for.
    pub(crate) fn count_open(&mut self)
        ensures { self.new ≡ record self.old { opens = raised self.old.opens } }
    {
        self.opens = self.opens.saturating_add(1);
    }

    /// Makes or replaces a whole file.
    pub(crate) fn plant(
        &mut self,
        alloc: Global,
        name: &Words,
        bytes: &[u8],
    ) -> Result<(), NoMemory>
        ensures files { Plants name.now bytes.now result (folder_of self.old.all) (folder_of self.new.all) }
        ensures durable { OnOk result (AllHold name.now bytes.now (IsImage self.new.all)) }
        ensures images { Touches MayBecomeAny name.now (IsImage self.old.all) (IsImage self.new.all) }
        ensures part { self.new.part ≡ self.old.part }
        ensures opens { self.new.opens ≡ self.old.opens }
    {
        let bytes = joined(alloc, bytes, &[])?;
        if self.holds(name) {
            seal_entry(&mut self.entries, name.as_str(), bytes);
            return Ok(());
        }
        let entry = Entry::new(name.copy(alloc)?, bytes, false);
        put_entry(&mut self.entries, entry)?;
        Ok(())
    }
}

/// A new draft without bytes, and its entry.
fn begun(alloc: Global, name: &Words) -> Result<(Entry, MemDraft), NoMemory>
    ensures entry { IfOk result (λ pair. pair.0 ≡ record { name = name.now; bytes = []; draft = true }) }
    ensures draft { IfOk result (λ pair. pair.1 ≡ record { name = name.now; bytes = [] }) }
{
    let bytes = joined(alloc, &[], &[])?;
    let entry = Entry::new(name.copy(alloc)?, Arc::try_clone(&bytes)?, true);
    let draft = MemDraft::new(name.copy(alloc)?, bytes)?;
    Ok((entry, draft))
}

/// The file of a name among the entries of a part.
fn file_of(
    alloc: Global,
    part: u8,
    entries: &[Entry],
    name: &Words,
) -> Result<Option<MemFile>, NoMemory>
    ensures name { IfOk result (λ found. IfSome found (λ file. file.name ≡ name.now)) }
    ensures part { IfOk result (λ found. IfSome found (λ file. file.part ≡ part)) }
    ensures bytes { IfOk result (λ found. option_map (λ file. file.bytes) found ≡ folder_of entries.now name.now) }
{
    let Some(at) = place_of(entries, name.as_str()) else {
        return Ok(None);
    };
    Ok(Some(MemFile {
        name: name.copy(alloc)?,
        part,
        bytes: entries[at].share()?,
    }))
}

impl FileDisk for SureDisk {
    type File = MemFile;

    type Draft = MemDraft;

    ghost use Rattle.file_disk.specs.Laws.{IsImage-told};
    ghost use Rattle.file_disk.specs.Memory.{folder_of, IsImage};

    ghost part = { λ d. d.part };

    ghost files = { λ d. Some (folder_of d.all) };

    ghost images = { λ d. IsImage d.all };

    ghost faults = { λ _. 0 };

    ghost opens = { λ d. d.opens };

    ghost draft_name = { λ d. d.name };

    ghost draft_bytes = { λ d. d.bytes };

    ghost tells_an_image = { λ d. IsImage-told d.all };

    fn create(&mut self, alloc: Global, name: &Words) -> Result<MemDraft, DiskNo> {
        if has_entry(self.entries.as_slice(), name.as_str()) {
            return Err(DiskNo::Exists);
        }
        let (entry, draft) = begun(alloc, name)?;
        put_entry(&mut self.entries, entry)?;
        Ok(draft)
    }

    fn append(&mut self, alloc: Global, draft: &mut MemDraft, piece: &[u8]) -> Result<(), DiskNo> {
        let bytes = draft.grow(alloc, piece)?;
        show_entry(&mut self.entries, draft.name.as_str(), bytes);
        Ok(())
    }

    fn sync(&mut self, draft: MemDraft) -> Result<MemFile, (MemDraft, DiskNo)> {
        let MemDraft { name, bytes, spare } = draft;
        seal_entry(&mut self.entries, name.as_str(), spare);
        Ok(MemFile {
            name,
            part: self.part,
            bytes,
        })
    }

    fn find(&mut self, alloc: Global, name: &Words) -> Result<Option<MemFile>, DiskNo> {
        let found = file_of(alloc, self.part, self.entries.as_slice(), name)?;
        Ok(found)
    }

    fn read(&mut self, alloc: Global, file: &MemFile) -> Result<Option<Vec<u8>>, DiskNo> {
        self.count_open();
        if file.part == self.part && !has_entry(self.entries.as_slice(), file.name.as_str()) {
            return Ok(None);
        }
        let bytes = Vec::from_slice(alloc, file.bytes.as_slice())?;
        Ok(Some(bytes))
    }

    fn remove(&mut self, name: &Words) -> Result<bool, DiskNo> {
        let there = has_entry(self.entries.as_slice(), name.as_str());
        drop_entry(&mut self.entries, name.as_str());
        Ok(there)
    }

    fn list(&mut self, alloc: Global) -> Result<Vec<Words>, DiskNo> {
        let names = copy_names(alloc, self.entries.as_slice())?;
        Ok(names)
    }
}
