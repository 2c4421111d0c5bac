ghost use Rattle.std.specs.Prelude.{◌≡◌, ◌↔◌, ℕ, List, [], ◌++◌, length, Option, Some, IsSome, IsNone, IsErrOf, IfOk, IfErr, OnOk, OnErr, IfSome, IfNone, OnSome};
ghost use Rattle.lake_io.specs.Causes.{raised, Rose};
ghost use Rattle.file_disk.specs.Calls.{HasCause, FailsByFault, IsDurable, IsGone, Creates, Appends, Seals, Finds, Removes, ListsNames};
ghost use Rattle.file_disk.specs.Folder.{Folder, Same, Changes, Touches, AddsNone, MayBecomeAny, StaysIfThere, StaysOrGoes};

use crate::fault::DiskNo;
use lake_types::{NoMemory, Words};
use std::alloc::Global;

/// A file that is whole on the disk.
pub trait Held: Drop {
    /// The name under which it lies.
    ghost name: { Self → List ℕ };

    /// How many bytes it has.
    ghost size: { Self → ℕ };

    /// The part of the folder in which it lies.
    ghost part: { Self → ℕ };

    /// Its bytes, where they are told.
    ghost bytes: { Self → Option (List ℕ) };

    fn name(&self) -> &Words
        ensures { result.now ≡ name self.now };

    /// How many bytes it has.
    fn size(&self) -> u64
        ensures { result ≡ size self.now };

    /// A further value of the same file.
    fn copy(&self, alloc: Global) -> Result<Self, NoMemory>
        ensures name { IfOk result (λ copy. name copy ≡ name self.now) }
        ensures size { IfOk result (λ copy. size copy ≡ size self.now) }
        ensures part { IfOk result (λ copy. part copy ≡ part self.now) }
        ensures bytes { IfOk result (λ copy. bytes copy ≡ bytes self.now) };

    ghost size_is: { (file : Self) → IfSome (bytes file) (λ bytes. length bytes ≡ size file) };
}

/// A folder of files, of which a disk sees one part. A file begins as a draft, which `sync` makes whole. A crash
/// leaves each draft as any bytes or not at all, each whole file as it is, and nothing else.
///
/// A draft is known by its name alone. Where the name was removed and a file made under it since, `append` of the older
/// draft may change the bytes that stand there now, and `sync` puts the older draft's bytes in their place, be it a
/// draft's or a whole file's. Who makes each name once, as `Names` gives them, never meets this.
pub trait FileDisk {
    type File: Held;

    type Draft: Drop;

    /// The disk's own part of the folder. No call changes it.
    ghost part: { Self → ℕ };

    /// The names in that part with their bytes, where they are told.
    ghost files: { Self → Option Folder };

    /// What a crash now may leave in that part: the files that are told are one of these images.
    ghost images: { Self → Folder → Type 0 };

    /// How often it has failed. It stands still at the last value of a `u64`.
    ghost faults: { Self → ℕ };

    /// How many reads were asked for. It stands still at the last value of a `u64`.
    ghost opens: { Self → ℕ };

    /// The name that `create` was given for a draft.
    ghost draft_name: { Self.Draft → List ℕ };

    /// The bytes that were appended to a draft so far.
    ghost draft_bytes: { Self.Draft → List ℕ };

    /// Begins a file under a name that isn't there.
    fn create(&mut self, alloc: Global, name: &Words) -> Result<Self::Draft, DiskNo>
        ensures name { IfOk result (λ draft. draft_name draft ≡ name.now) }
        ensures bytes { IfOk result (λ draft. draft_bytes draft ≡ []) }

        // `Exists` comes exactly where the name is there, and on a disk that tells no names by a fault.
        ensures exists { IfSome (files self.old) (λ old.
            IsErrOf result DiskNo.Exists ↔ IsSome (old name.now)) }
        ensures exists_untold { IfNone (files self.old)
            (IsErrOf result DiskNo.Exists → Rose (faults self.old) (faults self.new)) }
        ensures cause { HasCause (faults self.old) (faults self.new) result }

        ensures files { Changes (Creates name.now result) (files self.old) (files self.new) }
        ensures images { Touches StaysIfThere name.now (images self.old) (images self.new) }
        ensures opens { opens self.new ≡ opens self.old }
        ensures part { part self.new ≡ part self.old };

    /// Adds a piece at the draft's end.
    fn append(&mut self, alloc: Global, draft: &mut Self::Draft, piece: &[u8]) -> Result<(), DiskNo>
        ensures name { draft_name draft.new ≡ draft_name draft.old }
        ensures bytes { OnSome (files self.old)
            (OnOk result (draft_bytes draft.new ≡ draft_bytes draft.old ++ piece.now)) }
        ensures err { OnErr result (draft_bytes draft.new ≡ draft_bytes draft.old) }

        ensures exists { IsErrOf result DiskNo.Exists → ⊥ }
        ensures cause { HasCause (faults self.old) (faults self.new) result }

        ensures files { Changes (Appends (draft_name draft.old) result) (files self.old) (files self.new) }
        ensures images { Touches MayBecomeAny (draft_name draft.old) (images self.old) (images self.new) }
        ensures opens { opens self.new ≡ opens self.old }
        ensures part { part self.new ≡ part self.old };

    /// Makes the draft a whole file, which every crash from now on leaves until its name is removed. It takes no
    /// memory. Where the name was removed since `create`, it makes no name; where it was made anew since, what stands
    /// under it is replaced.
    fn sync(&mut self, draft: Self::Draft) -> Result<Self::File, (Self::Draft, DiskNo)>
        ensures name { IfOk result (λ file. Self.File.name file ≡ draft_name draft) }
        ensures own_part { IfOk result (λ file. Self.File.part file ≡ part self.new) }
        ensures bytes { OnSome (files self.old)
            (IfOk result (λ file. Self.File.bytes file ≡ Some (draft_bytes draft))) }
        ensures durable { OnOk result
            (IsDurable (draft_name draft) (draft_bytes draft) (files self.old) (images self.new)) }

        // A refusal gives the draft back.
        ensures back { IfErr result (λ back. back.0 ≡ draft) }
        ensures failed { IfErr result (λ back. back.1 ≡ DiskNo.Failed) }
        ensures cause { FailsByFault (faults self.old) (faults self.new) result }

        // Whatever stands under the name gets the draft's bytes, also a file that was made there since.
        ensures files { Changes (Seals (draft_name draft) (draft_bytes draft) result)
            (files self.old) (files self.new) }
        ensures images { Touches MayBecomeAny (draft_name draft) (images self.old) (images self.new) }
        ensures opens { opens self.new ≡ opens self.old }
        ensures part { part self.new ≡ part self.old };

    /// The file of a name in the disk's own part.
    fn find(&mut self, alloc: Global, name: &Words) -> Result<Option<Self::File>, DiskNo>
        ensures name { IfOk result (λ found. IfSome found (λ file. Self.File.name file ≡ name.now)) }
        ensures own_part { IfOk result (λ found. IfSome found (λ file. Self.File.part file ≡ part self.new)) }
        ensures found { IfSome (files self.old) (λ old.
            IfOk result (λ found. Finds Self.File.bytes found (old name.now))) }

        ensures exists { IsErrOf result DiskNo.Exists → ⊥ }
        ensures cause { HasCause (faults self.old) (faults self.new) result }

        ensures files { Changes Same (files self.old) (files self.new) }
        ensures images { AddsNone (images self.old) (images self.new) }
        ensures opens { opens self.new ≡ opens self.old }
        ensures part { part self.new ≡ part self.old };

    /// The bytes of a file of any part, and none where it was removed from the disk's own.
    fn read(&mut self, alloc: Global, file: &Self::File) -> Result<Option<Vec<u8>>, DiskNo>
        ensures bytes { IfSome (Self.File.bytes file.now) (λ bytes.
            IfOk result (λ read. IfSome read (λ got. got.items ≡ bytes))) }
        ensures gone { IfSome (files self.old) (λ old. IfOk result (λ read.
            IsNone read ↔ IsGone (part self.old) old (Self.File.part file.now) (Self.File.name file.now))) }
        ensures opens { opens self.new ≡ raised (opens self.old) }

        ensures exists { IsErrOf result DiskNo.Exists → ⊥ }
        ensures cause { HasCause (faults self.old) (faults self.new) result }

        ensures files { Changes Same (files self.old) (files self.new) }
        ensures images { AddsNone (images self.old) (images self.new) }
        ensures part { part self.new ≡ part self.old };

    /// Takes a name out of the disk's own part, and answers whether it was there.
    fn remove(&mut self, name: &Words) -> Result<bool, DiskNo>
        ensures failed { IfErr result (λ why. why ≡ DiskNo.Failed) }
        ensures cause { HasCause (faults self.old) (faults self.new) result }

        ensures files { Changes (Removes name.now result) (files self.old) (files self.new) }
        ensures images { Touches StaysOrGoes name.now (images self.old) (images self.new) }
        ensures opens { opens self.new ≡ opens self.old }
        ensures part { part self.new ≡ part self.old };

    /// The names in the disk's own part, in the order of their bytes.
    fn list(&mut self, alloc: Global) -> Result<Vec<Words>, DiskNo>
        ensures names { IfSome (files self.old) (λ old. IfOk result (λ names. ListsNames old names.items)) }

        ensures exists { IsErrOf result DiskNo.Exists → ⊥ }
        ensures cause { HasCause (faults self.old) (faults self.new) result }

        ensures files { Changes Same (files self.old) (files self.new) }
        ensures images { AddsNone (images self.old) (images self.new) }
        ensures opens { opens self.new ≡ opens self.old }
        ensures part { part self.new ≡ part self.old };

    ghost tells_an_image: { (disk : Self) → IfSome (files disk) (images disk) };
}
