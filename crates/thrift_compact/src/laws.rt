//! What holds of the spellings. Each function's contract is a law, and its body is empty.

ghost use Rattle.std.specs.Prelude.{◌^◌, ◌<◌, ◌<ℤ◌, ◌∷◌, [], ℕ, ℤ, List, length, Some, None, FitsSigned};
ghost use Rattle.std.specs.Int.{w16, w32, w64};
ghost use Rattle.thrift_compact.specs.Spelling.{IsSigned, IsByte, IsBinary, IsListHeader, IsFieldHeader, IsType};
ghost use Rattle.thrift_compact.specs.Trees.{IsValue};
ghost use Rattle.thrift_compact.specs.Reading.{signed_in, byte_in, binary_in, list_header_in, field_header_in};
ghost use Rattle.thrift_compact.specs.Shortest.{signed_spelling, binary_spelling, field_spelling, list_spelling};
ghost use Rattle.thrift_compact.specs.Laws.{NoneBeginsAnother, SaysOne, FaultsStand, ValueFaultsStand, ReadsBack};

/// No spelling of an item begins another one of the same type.
pub fn none_begins_another()
    ensures signed { (limit : ℕ) → NoneBeginsAnother (IsSigned limit) }
    ensures byte { NoneBeginsAnother IsByte }
    ensures binary { NoneBeginsAnother IsBinary }
    ensures list_header { NoneBeginsAnother IsListHeader }
    ensures field_header { (last : ℤ) → NoneBeginsAnother (IsFieldHeader last) }
    ensures value { (depth ty : ℕ) → NoneBeginsAnother (IsValue depth ty) }
{}

/// A spelling says one thing: bytes that spell a value stand for one tree.
pub fn says_one()
    ensures signed { (limit : ℕ) → SaysOne (IsSigned limit) }
    ensures byte { SaysOne IsByte }
    ensures binary { SaysOne IsBinary }
    ensures list_header { SaysOne IsListHeader }
    ensures field_header { (last : ℤ) → SaysOne (IsFieldHeader last) }
    ensures value { (depth ty : ℕ) → SaysOne (IsValue depth ty) }
{}

/// A fault other than `Short` stands, whatever bytes follow: the bytes up to it decide, so that the
/// first fault in byte order is the one that is named.
pub fn faults_stand()
    ensures signed { (at limit : ℕ) → FaultsStand (signed_in at limit) }
    ensures byte { (at : ℕ) → FaultsStand (byte_in at) }
    ensures binary { (at : ℕ) → FaultsStand (binary_in at) }
    ensures list_header { (at : ℕ) → FaultsStand (list_header_in at) }
    ensures field_header { (at : ℕ) (last : ℤ) → FaultsStand (field_header_in at last) }
    ensures value { (depth ty : ℕ) → ValueFaultsStand depth ty }
{}

/// What is written, whatever follows it, reads back as what was written.
pub fn reads_back()
    ensures i32 { (at : ℕ) (z : ℤ) → FitsSigned w32 z
        → ReadsBack (signed_in at (2 ^ 32)) (signed_spelling z) z }
    ensures i64 { (at : ℕ) (z : ℤ) → FitsSigned w64 z
        → ReadsBack (signed_in at (2 ^ 64)) (signed_spelling z) z }
    ensures binary { (at : ℕ) (text : List ℕ) → length text < 2 ^ 32
        → ReadsBack (binary_in at) (binary_spelling text) text }
    ensures list_header { (at ty size : ℕ) → IsType ty → size < 2 ^ 32
        → ReadsBack (list_header_in at) (list_spelling ty size) (ty, size) }
    ensures field_header { (at : ℕ) (last id : ℤ) (ty : ℕ) → last <ℤ id
        → IsType ty → FitsSigned w16 id
        → ReadsBack (field_header_in at last) (field_spelling last id ty) (Some (id, ty)) }
    ensures stop { (at : ℕ) (last : ℤ) → ReadsBack (field_header_in at last) (0 ∷ []) None }
{}
