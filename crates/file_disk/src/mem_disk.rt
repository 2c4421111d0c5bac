ghost use Rattle.std.specs.Prelude.{◌≡◌, ◌<◌, ◌↔◌, ℕ, [], ◌++◌, length, Some, None, IsTrue, IsSome, IsNone, IsErr, IsErrOf, IfOk, IfErr, IfSome, OnOk, OnErr, slice_index_or};
ghost use Rattle.lake_io.specs.Causes.{raised};
ghost use Rattle.lake_io.specs.FailList.{fails_next, after_call};
ghost use Rattle.file_disk.specs.Calls.{HasCause, FailsByFault, AllHold, IsDurable, IsGone, Creates, Appends, Seals, Finds, Plants, Removes, ListsNames};
ghost use Rattle.file_disk.specs.Folder.{Same, Touches, AddsNone, MayBecomeAny, StaysIfThere, StaysOrGoes};
ghost use Rattle.file_disk.specs.Memory.{FailingPart, IsNewPart, folder_of, IsImage};

use crate::disk::FileDisk;
use crate::fault::DiskNo;
use crate::mem_file::{MemDraft, MemFile};
use crate::sure_disk::SureDisk;
use lake_io::{FailList, FaultInjector};
use lake_types::{NoMemory, Words};
use std::alloc::Global;
use std::marker::Model;

/// A disk in memory that fails at the calls of a list. All its calls but `plant` are numbered together.
#[derive(Debug, Drop)]
pub struct MemDisk {
    disk: SureDisk,
    injector: FaultInjector,
}

impl Model for MemDisk {
    ghost use Rattle.file_disk.specs.Memory.{FailingPart};

    ghost Value = { FailingPart };

    ghost view = { λ d. record { part = d.disk.part; all = d.disk.all; opens = d.disk.opens; injected = d.injector } };
}

/// An empty part of a folder, of which no call fails.
fn new_part(alloc: Global, part: u8) -> MemDisk
    ensures { IsNewPart part result }
{
    let fails = FailList {
        calls: Vec::new(alloc),
        from: None,
    };
    MemDisk {
        disk: SureDisk::of_part(alloc, part),
        injector: FaultInjector::new(fails),
    }
}

impl MemDisk {
    /// An empty folder.
    pub fn new(alloc: Global, fails: FailList) -> MemDisk
        ensures { result ≡ record { part = 0; all = []; opens = 0; injected = record { fails = fails; calls = 0; faults = 0 } } }
    {
        MemDisk {
            disk: SureDisk::new(alloc),
            injector: FaultInjector::new(fails),
        }
    }

    /// Disks over one folder that never fail, each with a part of its own: the parts are numbered from 0. A disk
    /// reads files of any part, and finds, lists and removes those of its own.
    pub fn family(alloc: Global, n: u8) -> Result<Vec<MemDisk>, NoMemory>
        ensures len { IfOk result (λ disks. length disks.items ≡ n) }
        ensures parts { IfOk result (λ disks. (i : ℕ) (d : FailingPart) → i < n → IsNewPart i (slice_index_or disks.items i d)) }
    {
        let mut disks = Vec::with_capacity(alloc, n as usize)?;
        for part in 0..n {
            disks.push(new_part(alloc, part))?;
        }
        Ok(disks)
    }

    /// How often it has failed.
    pub fn faults(&self) -> u64
        ensures { result ≡ self.now.injected.faults }
    {
        self.injector.faults()
    }

    /// How many reads were asked for.
    pub fn opens(&self) -> u64
        ensures { result ≡ self.now.opens }
    {
        self.disk.opens()
    }

    /// Makes or replaces a whole file in the disk's own part, for tests and for files of other tools. It never fails.
    pub fn plant(&mut self, alloc: Global, name: &Words, bytes: &[u8]) -> Result<(), NoMemory>
        ensures files { Plants name.now bytes.now result (folder_of self.old.all) (folder_of self.new.all) }
        ensures durable { OnOk result (AllHold name.now bytes.now (IsImage self.new.all)) }
        ensures images { Touches MayBecomeAny name.now (IsImage self.old.all) (IsImage self.new.all) }
        ensures opens { self.new.opens ≡ self.old.opens }
        ensures part { self.new.part ≡ self.old.part }
        ensures injected { self.new.injected ≡ self.old.injected }
    {
        self.disk.plant(alloc, name, bytes)
    }
}

impl FileDisk for MemDisk {
    type File = MemFile;

    type Draft = MemDraft;

    ghost use Rattle.file_disk.specs.Laws.{IsImage-told};

    ghost part = { λ d. d.part };

    ghost files = { λ d. Some (folder_of d.all) };

    ghost images = { λ d. IsImage d.all };

    ghost faults = { λ d. d.injected.faults };

    ghost opens = { λ d. d.opens };

    ghost draft_name = { λ d. d.name };

    ghost draft_bytes = { λ d. d.bytes };

    ghost tells_an_image = { λ d. IsImage-told d.all };

    fn create(&mut self, alloc: Global, name: &Words) -> Result<MemDraft, DiskNo>
        // It fails at exactly the calls of its list, but where the name is there.
        ensures counts { self.new.injected ≡ after_call self.old.injected }
        ensures fails { IsErrOf result DiskNo.Failed ↔ (IsTrue (fails_next self.old.injected) × (folder_of self.old.all name.now ≡ None)) }
        ensures exists { IsErrOf result DiskNo.Exists ↔ IsSome (folder_of self.old.all name.now) }
        ensures cause { HasCause self.old.injected.faults self.new.injected.faults result }

        ensures name { IfOk result (λ draft. draft.name ≡ name.now) }
        ensures bytes { IfOk result (λ draft. draft.bytes ≡ []) }

        ensures files { Creates name.now result (folder_of self.old.all) (folder_of self.new.all) }
        ensures images { Touches StaysIfThere name.now (IsImage self.old.all) (IsImage self.new.all) }
        ensures opens { self.new.opens ≡ self.old.opens }
        ensures part { self.new.part ≡ self.old.part }
    {
        let listed = self.injector.count_call().is_err();
        if listed && !self.disk.holds(name) {
            return Err(DiskNo::Failed);
        }
        self.disk.create(alloc, name)
    }

    fn append(&mut self, alloc: Global, draft: &mut MemDraft, piece: &[u8]) -> Result<(), DiskNo>
        // It fails at exactly the calls of its list.
        ensures counts { self.new.injected ≡ after_call self.old.injected }
        ensures fails { IsErrOf result DiskNo.Failed ↔ IsTrue (fails_next self.old.injected) }
        ensures exists { IsErrOf result DiskNo.Exists → ⊥ }
        ensures cause { HasCause self.old.injected.faults self.new.injected.faults result }

        ensures name { draft.new.name ≡ draft.old.name }
        ensures bytes { OnOk result (draft.new.bytes ≡ draft.old.bytes ++ piece.now) }
        ensures err { OnErr result (draft.new.bytes ≡ draft.old.bytes) }

        ensures files { Appends draft.old.name result (folder_of self.old.all) (folder_of self.new.all) }
        ensures images { Touches MayBecomeAny draft.old.name (IsImage self.old.all) (IsImage self.new.all) }
        ensures opens { self.new.opens ≡ self.old.opens }
        ensures part { self.new.part ≡ self.old.part }
    {
        self.injector.count_call()?;
        self.disk.append(alloc, draft, piece)
    }

    fn sync(&mut self, draft: MemDraft) -> Result<MemFile, (MemDraft, DiskNo)>
        // It fails at exactly the calls of its list, and gives the draft back.
        ensures counts { self.new.injected ≡ after_call self.old.injected }
        ensures fails { IsErr result ↔ IsTrue (fails_next self.old.injected) }
        ensures back { IfErr result (λ back. back.0 ≡ draft) }
        ensures failed { IfErr result (λ back. back.1 ≡ DiskNo.Failed) }
        ensures cause { FailsByFault self.old.injected.faults self.new.injected.faults result }

        ensures name { IfOk result (λ file. file.name ≡ draft.name) }
        ensures own_part { IfOk result (λ file. file.part ≡ self.new.part) }
        ensures bytes { IfOk result (λ file. file.bytes ≡ draft.bytes) }
        ensures durable { OnOk result (IsDurable draft.name draft.bytes (Some (folder_of self.old.all)) (IsImage self.new.all)) }

        ensures files { Seals draft.name draft.bytes result (folder_of self.old.all) (folder_of self.new.all) }
        ensures images { Touches MayBecomeAny draft.name (IsImage self.old.all) (IsImage self.new.all) }
        ensures opens { self.new.opens ≡ self.old.opens }
        ensures part { self.new.part ≡ self.old.part }
    {
        if self.injector.count_call().is_err() {
            return Err((draft, DiskNo::Failed));
        }
        self.disk.sync(draft)
    }

    fn find(&mut self, alloc: Global, name: &Words) -> Result<Option<MemFile>, DiskNo>
        // It fails at exactly the calls of its list.
        ensures counts { self.new.injected ≡ after_call self.old.injected }
        ensures fails { IsErrOf result DiskNo.Failed ↔ IsTrue (fails_next self.old.injected) }
        ensures exists { IsErrOf result DiskNo.Exists → ⊥ }
        ensures cause { HasCause self.old.injected.faults self.new.injected.faults result }

        ensures name { IfOk result (λ found. IfSome found (λ file. file.name ≡ name.now)) }
        ensures own_part { IfOk result (λ found. IfSome found (λ file. file.part ≡ self.new.part)) }
        ensures found { IfOk result (λ found. Finds (λ file. Some file.bytes) found (folder_of self.old.all name.now)) }

        ensures files { Same (folder_of self.old.all) (folder_of self.new.all) }
        ensures images { AddsNone (IsImage self.old.all) (IsImage self.new.all) }
        ensures opens { self.new.opens ≡ self.old.opens }
        ensures part { self.new.part ≡ self.old.part }
    {
        self.injector.count_call()?;
        self.disk.find(alloc, name)
    }

    fn read(&mut self, alloc: Global, file: &MemFile) -> Result<Option<Vec<u8>>, DiskNo>
        // It fails at exactly the calls of its list.
        ensures counts { self.new.injected ≡ after_call self.old.injected }
        ensures fails { IsErrOf result DiskNo.Failed ↔ IsTrue (fails_next self.old.injected) }
        ensures exists { IsErrOf result DiskNo.Exists → ⊥ }
        ensures cause { HasCause self.old.injected.faults self.new.injected.faults result }

        ensures bytes { IfOk result (λ read. IfSome read (λ got. got.items ≡ file.now.bytes)) }
        ensures gone { IfOk result (λ read. IsNone read ↔ IsGone self.old.part (folder_of self.old.all) file.now.part file.now.name) }
        ensures opens { self.new.opens ≡ raised self.old.opens }

        ensures files { Same (folder_of self.old.all) (folder_of self.new.all) }
        ensures images { AddsNone (IsImage self.old.all) (IsImage self.new.all) }
        ensures part { self.new.part ≡ self.old.part }
    {
        if self.injector.count_call().is_err() {
            self.disk.count_open();
            return Err(DiskNo::Failed);
        }
        self.disk.read(alloc, file)
    }

    fn remove(&mut self, name: &Words) -> Result<bool, DiskNo>
        // It fails at exactly the calls of its list.
        ensures counts { self.new.injected ≡ after_call self.old.injected }
        ensures fails { IsErr result ↔ IsTrue (fails_next self.old.injected) }
        ensures failed { IfErr result (λ why. why ≡ DiskNo.Failed) }
        ensures cause { HasCause self.old.injected.faults self.new.injected.faults result }

        ensures files { Removes name.now result (folder_of self.old.all) (folder_of self.new.all) }
        ensures images { Touches StaysOrGoes name.now (IsImage self.old.all) (IsImage self.new.all) }
        ensures opens { self.new.opens ≡ self.old.opens }
        ensures part { self.new.part ≡ self.old.part }
    {
        self.injector.count_call()?;
        self.disk.remove(name)
    }

    fn list(&mut self, alloc: Global) -> Result<Vec<Words>, DiskNo>
        // It fails at exactly the calls of its list.
        ensures counts { self.new.injected ≡ after_call self.old.injected }
        ensures fails { IsErrOf result DiskNo.Failed ↔ IsTrue (fails_next self.old.injected) }
        ensures exists { IsErrOf result DiskNo.Exists → ⊥ }
        ensures cause { HasCause self.old.injected.faults self.new.injected.faults result }

        ensures names { IfOk result (λ names. ListsNames (folder_of self.old.all) names.items) }

        ensures files { Same (folder_of self.old.all) (folder_of self.new.all) }
        ensures images { AddsNone (IsImage self.old.all) (IsImage self.new.all) }
        ensures opens { self.new.opens ≡ self.old.opens }
        ensures part { self.new.part ≡ self.old.part }
    {
        self.injector.count_call()?;
        self.disk.list(alloc)
    }
}
