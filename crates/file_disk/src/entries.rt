ghost use Rattle.std.specs.Prelude.{◌≡◌, ◌<◌, ◌≤◌, false, length, None, Some, IsSome, true, option_map, IfOk, OnOk, OnErr, if◌then◌else◌};
ghost use Rattle.std.specs.Arc.{arc_value};
ghost use Rattle.std.specs.List.{position, prefix_len};
ghost use Rattle.std.specs.Ordering.{is_lt, nat_cmp};
ghost use Rattle.std.specs.Cmp.Lexicographic.{slice_cmp};
ghost use Rattle.file_disk.specs.Folder.{Rises};
ghost use Rattle.file_disk.specs.Memory.{Sets, folder_of, is_named, kept_at, names_of, shown, sealed};

use lake_types::{Copied, NoMemory, Words};
use std::alloc::Global;
use std::marker::Model;
use std::sync::Arc;

/// A name in the folder, with the bytes that are there.
#[derive(Debug, Drop)]
pub struct Entry {
    name: Words,
    bytes: Arc<Vec<u8>>,
    draft: bool,
}

impl Model for Entry {
    ghost use Rattle.std.specs.Arc.{arc_value};
    ghost use Rattle.file_disk.specs.Memory.{Kept};

    ghost Value = { Kept };

    ghost view = { λ e. record { name = e.name; bytes = (arc_value e.bytes).items; draft = e.draft } };
}

impl Entry {
    pub fn new(name: Words, bytes: Arc<Vec<u8>>, draft: bool) -> Entry
        ensures { result ≡ record { name = name; bytes = (arc_value bytes).items; draft = draft } }
    {
        Entry { name, bytes, draft }
    }

    /// A further handle of its bytes.
    pub fn share(&self) -> Result<Arc<Vec<u8>>, NoMemory>
        ensures { IfOk result (λ bytes. (arc_value bytes).items ≡ self.now.bytes) }
    {
        Arc::try_clone(&self.bytes)
    }

    pub fn is_named(&self, name: &str) -> bool
        ensures { result ≡ is_named name.now self.now }
    {
        self.name.as_str() == name
    }

    fn is_below(&self, name: &str) -> bool
        ensures { result ≡ is_lt (slice_cmp nat_cmp self.now.name name.now) }
    {
        self.name.as_str() < name
    }

    /// Shows what a draft has so far. A whole file stays as it is.
    pub fn show(&mut self, bytes: Arc<Vec<u8>>)
        ensures { self.new ≡ (if self.old.draft then record self.old { bytes = (arc_value bytes).items } else self.old) }
    {
        if self.draft {
            self.bytes = bytes;
        }
    }

    /// Makes it a whole file with these bytes.
    pub fn seal(&mut self, bytes: Arc<Vec<u8>>)
        ensures { self.new ≡ record { name = self.old.name; bytes = (arc_value bytes).items; draft = false } }
    {
        self.bytes = bytes;
        self.draft = false;
    }
}

/// Where the name is among the entries.
pub fn place_of(entries: &[Entry], name: &str) -> Option<usize>
    ensures { result ≡ position (is_named name.now) entries.now }
{
    entries.iter().position(|entry| entry.is_named(name))
}

/// Whether the name is among the entries.
pub fn has_entry(entries: &[Entry], name: &str) -> bool
    ensures absent { result ≡ false → kept_at entries.now name.now ≡ None }
    ensures there { result ≡ true → IsSome (folder_of entries.now name.now) }
{
    place_of(entries, name).is_some()
}

/// How many names come before this one.
fn count_below(entries: &[Entry], name: &str) -> usize
    ensures count { result ≡ prefix_len (λ e. is_lt (slice_cmp nat_cmp e.name name.now)) entries.now }
    ensures within { result ≤ length entries.now }
{
    entries
        .iter()
        .take_while(|entry| entry.is_below(name))
        .count()
}

/// Adds an entry, of a name that isn't there, at its place.
pub fn put_entry(entries: &mut Vec<Entry>, entry: Entry) -> Result<(), NoMemory>
    requires fresh { kept_at entries.old.items entry.name ≡ None }
    requires order { Rises (names_of entries.old.items) }
    ensures ok { OnOk result (Sets entry.name (Some entry) entries.old.items entries.new.items) }
    ensures err { OnErr result (entries.new.items ≡ entries.old.items) }
    ensures order { Rises (names_of entries.new.items) }
{
    let at = count_below(entries.as_slice(), entry.name.as_str());
    entries.insert(at, entry)?;
    Ok(())
}

/// Takes the entry of a name away.
pub fn drop_entry(entries: &mut Vec<Entry>, name: &str)
    requires { Rises (names_of entries.old.items) }
    ensures sets { Sets name.now None entries.old.items entries.new.items }
    ensures order { Rises (names_of entries.new.items) }
{
    entries.retain(|entry| !entry.is_named(name));
}

/// Shows what the draft of a name has so far.
pub fn show_entry(entries: &mut Vec<Entry>, name: &str, bytes: Arc<Vec<u8>>)
    requires { Rises (names_of entries.old.items) }
    ensures sets { Sets name.now (option_map (shown (arc_value bytes).items) (kept_at entries.old.items name.now)) entries.old.items entries.new.items }
    ensures order { Rises (names_of entries.new.items) }
{
    if let Some(at) = place_of(entries.as_slice(), name) {
        entries[at].show(bytes);
    }
}

/// Makes the entry of a name a whole file.
pub fn seal_entry(entries: &mut Vec<Entry>, name: &str, bytes: Arc<Vec<u8>>)
    requires { Rises (names_of entries.old.items) }
    ensures sets { Sets name.now (option_map (sealed (arc_value bytes).items) (kept_at entries.old.items name.now)) entries.old.items entries.new.items }
    ensures order { Rises (names_of entries.new.items) }
{
    if let Some(at) = place_of(entries.as_slice(), name) {
        entries[at].seal(bytes);
    }
}

/// The names of all entries, in order.
pub fn copy_names(alloc: Global, entries: &[Entry]) -> Result<Vec<Words>, NoMemory>
    ensures { IfOk result (λ names. names.items ≡ names_of entries.now) }
{
    let mut names = Vec::new(alloc);
    for entry in entries {
        names.push(entry.name.copy(alloc)?)?;
    }
    Ok(names)
}
