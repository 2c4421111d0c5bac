ghost use Rattle.std.specs.Prelude.{◌≡◌, [], None, IfOk, IsErrOf};
ghost use Rattle.lake_io.specs.Causes.{HasCause};
ghost use Rattle.file_disk.specs.Calls as calls;

use crate::draft::{HostDraft, HostFile};
use crate::folder::{found, is_regular, named, open_folder};
use crate::no::OpenNo;
use crate::path::path_in;
use file_disk::{DiskNo, FileDisk};
use lake_io::Failed;
use lake_types::{Copied, Words};
use std::alloc::Global;
use std::fs::{self, File};
use std::io::{self, ErrorKind, Read, Write};

/// A folder of the system. It tells nothing of its files, and counts each error.
///
/// What is no regular file, as a folder, a pipe or a link, isn't there. A name that would lead out of the folder isn't
/// there either, and can't be made.
pub struct HostDisk<'a> {
    rt: &'a HostRuntime,
    folder: &'a str,
    /// The open folder, which is synced after each new file.
    own: File,
    faults: u64,
    opens: u64,
}

impl Drop for HostDisk<'_> {
    fn drop(self) {
        let HostDisk {
            rt: _,
            folder: _,
            own: _,
            faults: _,
            opens: _,
        } = self;
    }
}

/// Adds a piece to a draft that isn't spoiled.
fn write_sound(draft: &mut HostDraft, piece: &[u8]) -> io::Result<()>
    ensures { draft.new ≡ draft.old }
{
    if draft.is_spoiled {
        return Err(io::Error::from(ErrorKind::InvalidData));
    }
    draft.file.write_all(piece)
}

fn is_there(file: &io::Result<File>) -> bool {
    match file {
        Ok(_) => false,
        Err(error) => error.kind() == ErrorKind::AlreadyExists,
    }
}

fn wants_memory<T>(answer: &io::Result<T>) -> bool {
    match answer {
        Ok(_) => false,
        Err(error) => error.kind() == ErrorKind::OutOfMemory,
    }
}

impl<'a> HostDisk<'a> {
    /// Opens the folder, and makes it where it is missing.
    pub fn open(rt: &'a HostRuntime, folder: &'a str) -> Result<HostDisk<'a>, OpenNo>
        ensures faults { IfOk result (λ disk. disk.faults ≡ 0) }
        ensures opens { IfOk result (λ disk. disk.opens ≡ 0) }
    {
        let own = open_folder(rt, folder)?;
        Ok(HostDisk {
            rt,
            folder,
            own,
            faults: 0,
            opens: 0,
        })
    }

    /// How often it has failed.
    pub fn faults(&self) -> u64
        ensures { result ≡ self.now.faults }
    {
        self.faults
    }

    /// How many reads were asked for.
    pub fn opens(&self) -> u64
        ensures { result ≡ self.now.opens }
    {
        self.opens
    }

    /// Counts an error of the system.
    fn counted<T: Drop>(&mut self, answer: io::Result<T>) -> Result<T, Failed>
        ensures cause { HasCause self.old.faults self.new.faults result }
        ensures opens { self.new.opens ≡ self.old.opens }
    {
        match answer {
            Ok(value) => Ok(value),
            Err(_) => {
                self.faults = self.faults.saturating_add(1);
                Err(Failed)
            }
        }
    }

    /// The same, where want of memory is an answer of its own.
    fn told<T: Drop>(&mut self, answer: io::Result<T>) -> Result<T, DiskNo>
        ensures cause { calls.HasCause self.old.faults self.new.faults result }
        ensures exists { IsErrOf result DiskNo.Exists → ⊥ }
        ensures opens { self.new.opens ≡ self.old.opens }
    {
        if wants_memory(&answer) {
            return Err(DiskNo::Memory);
        }
        Ok(self.counted(answer)?)
    }

    fn new_file(&self, name: &Words) -> io::Result<File> {
        let Some(path) = path_in(self.folder, name) else {
            return Err(io::Error::from(ErrorKind::InvalidFilename));
        };
        File::create_new(self.rt, path.as_str())
    }

    /// The size of the regular file of a name.
    fn size_of(&self, name: &Words) -> io::Result<Option<u64>> {
        let Some(path) = path_in(self.folder, name) else {
            return Ok(None);
        };
        match found(fs::symlink_metadata(self.rt, path.as_str()))? {
            Some(metadata) if metadata.is_file() => Ok(Some(metadata.len())),
            _ => Ok(None),
        }
    }

    /// The bytes of the regular file of a name.
    fn bytes_of(&self, alloc: Global, name: &Words) -> io::Result<Option<Vec<u8>>> {
        let (Some(size), Some(path)) = (self.size_of(name)?, path_in(self.folder, name)) else {
            return Ok(None);
        };
        let Some(mut file) = found(File::open(self.rt, path.as_str()))? else {
            return Ok(None);
        };
        let mut bytes = Vec::with_capacity(alloc, size as usize)?;
        file.read_to_end(&mut bytes)?;
        Ok(Some(bytes))
    }

    fn taken_out(&self, name: &Words) -> io::Result<bool> {
        let (Some(_), Some(path)) = (self.size_of(name)?, path_in(self.folder, name)) else {
            return Ok(false);
        };
        Ok(found(fs::remove_file(self.rt, path.as_str()))?.is_some())
    }

    /// Makes the draft's bytes and its name outlast a stop of the system.
    fn synced(&self, draft: &HostDraft) -> io::Result<()> {
        if draft.is_spoiled {
            return Err(io::Error::from(ErrorKind::InvalidData));
        }
        draft.file.sync_all()?;
        self.own.sync_all()
    }

    /// The names of the regular files, in the order of their bytes.
    fn names(&self, alloc: Global) -> io::Result<Vec<Words>> {
        let mut texts = Vec::new(alloc);
        for entry in fs::read_dir(self.rt, self.folder)? {
            if let Some(entry) = named(entry)?
                && is_regular(&entry)?
            {
                texts.push(String::from_str(alloc, entry.file_name())?)?;
            }
        }
        texts.sort_unstable();
        let mut names = Vec::with_capacity(alloc, texts.len())?;
        for text in texts {
            names.push(Words::from_string(text))?;
        }
        Ok(names)
    }
}

impl FileDisk for HostDisk<'_> {
    type File = HostFile;

    type Draft = HostDraft;

    ghost part = { λ _. 0 };

    ghost files = { λ _. None };

    ghost images = { λ _ _. Unit {0} };

    ghost faults = { λ d. d.faults };

    ghost opens = { λ d. d.opens };

    ghost draft_name = { λ d. d };

    ghost draft_bytes = { λ d. [] };

    ghost tells_an_image = { λ _. tt };

    #[tactic(auto, using(crate::proofs::TouchLemmas::stays_if_there))]
    fn create(&mut self, alloc: Global, name: &Words) -> Result<HostDraft, DiskNo> {
        let own_name = name.copy(alloc)?;
        let file = self.new_file(name);
        let exists = is_there(&file);
        match self.counted(file) {
            Ok(file) => Ok(HostDraft {
                name: own_name,
                size: 0,
                file,
                is_spoiled: false,
            }),
            Err(_) if exists => Err(DiskNo::Exists),
            Err(_) => Err(DiskNo::Failed),
        }
    }

    #[tactic(auto, using(crate::proofs::TouchLemmas::may_become_any))]
    fn append(
        &mut self,
        _alloc: Global,
        draft: &mut HostDraft,
        piece: &[u8],
    ) -> Result<(), DiskNo> {
        let written = write_sound(draft, piece);
        draft.is_spoiled = written.is_err();
        self.counted(written)?;
        draft.size = draft.size.saturating_add(piece.len() as u64);
        Ok(())
    }

    #[tactic(auto, using(crate::proofs::TouchLemmas::may_become_any))]
    fn sync(&mut self, draft: HostDraft) -> Result<HostFile, (HostDraft, DiskNo)> {
        let mut draft = draft;
        let synced = self.synced(&draft);
        if self.counted(synced).is_err() {
            draft.is_spoiled = true;
            return Err((draft, DiskNo::Failed));
        }
        let HostDraft {
            name,
            size,
            file: _,
            is_spoiled: _,
        } = draft;
        Ok(HostFile { name, size })
    }

    fn find(&mut self, alloc: Global, name: &Words) -> Result<Option<HostFile>, DiskNo> {
        let own_name = name.copy(alloc)?;
        let size = self.size_of(name);
        match self.counted(size)? {
            Some(size) => Ok(Some(HostFile {
                name: own_name,
                size,
            })),
            None => Ok(None),
        }
    }

    fn read(&mut self, alloc: Global, file: &HostFile) -> Result<Option<Vec<u8>>, DiskNo> {
        self.opens = self.opens.saturating_add(1);
        let bytes = self.bytes_of(alloc, &file.name);
        self.told(bytes)
    }

    #[tactic(auto, using(crate::proofs::TouchLemmas::stays_or_goes))]
    fn remove(&mut self, name: &Words) -> Result<bool, DiskNo> {
        let was_there = self.taken_out(name);
        Ok(self.counted(was_there)?)
    }

    fn list(&mut self, alloc: Global) -> Result<Vec<Words>, DiskNo> {
        let names = self.names(alloc);
        self.told(names)
    }
}
