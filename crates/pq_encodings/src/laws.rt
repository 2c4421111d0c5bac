//! What holds of the encodings. Each function's contract is a law, and its body is empty.

ghost use Rattle.std.specs.Prelude.{◌≡◌, ◌<◌, ◌≤◌, ◌*◌, ◌^◌, ◌++◌, ℕ, List, All, Bool, Ok, length, map};
ghost use Rattle.pq_encodings.specs.Indices.{indices_in};
ghost use Rattle.pq_encodings.specs.Levels.{level_bytes, level_of};
ghost use Rattle.pq_encodings.specs.Runs.{levels_in};
ghost use Rattle.pq_encodings.specs.Values.{AreInRange, AreShort, IsReadAgain, Values, count_of, kind_of, plain_size, value_bytes, values_in};
ghost use Rattle.pq_encodings.specs.declared.plain.Physical.{Physical};

/// What is written, whatever follows it, reads back as what was written.
pub fn reads_back()
    ensures levels { (flags : List Bool) (rest : List ℕ) → length flags < 2 ^ 63
        → levels_in 1 (level_bytes flags ++ rest) (length flags) ≡ Ok (map level_of flags) }
    ensures values { (vs : Values) (rest : List ℕ) → AreShort vs → AreInRange vs → IsReadAgain vs (value_bytes vs ++ rest) }
{}

/// What is read is what was asked for: of that kind, as many as that, no byte string too long, no index past the size.
pub fn reads_as_asked()
    ensures levels { (width count : ℕ) (bytes xs : List ℕ) → levels_in width bytes count ≡ Ok xs → length xs ≡ count }
    ensures indices { (count size : ℕ) (bytes xs : List ℕ) → indices_in bytes count size ≡ Ok xs
        → (length xs ≡ count) × All (λ x. x < size) xs }
    ensures values { (kind : Physical) (count : ℕ) (bytes : List ℕ) (vs : Values) → values_in kind count bytes ≡ Ok vs
        → (kind_of vs ≡ kind) × (count_of vs ≡ count) × AreShort vs }
{}

/// How many bytes written levels take at most, and written values take.
pub fn sizes()
    ensures levels { (flags : List Bool) → length (level_bytes flags) ≤ 11 * length flags }
    ensures values { (vs : Values) → length (value_bytes vs) ≡ plain_size vs }
{}
