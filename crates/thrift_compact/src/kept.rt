ghost use Rattle.std.specs.Prelude.{◌≡◌, ◌++◌, ◌∷◌, [], length, OnOk, OnErr};

use std::alloc::{AllocFailed, Global};
use std::marker::Model;

/// A text or a byte string of a struct, as a slice of the bytes that are read. Contracts see its bytes.
#[derive(Debug, Drop)]
pub struct Text<'a> {
    bytes: &'a [u8],
}

impl<'a> Model for Text<'a> {
    ghost use Rattle.std.specs.Prelude.{ℕ, List};

    ghost Value = { List ℕ };

    ghost view = { λ t. t.bytes.now };
}

impl<'a> Text<'a> {
    pub fn new(bytes: &'a [u8]) -> Text<'a>
        ensures { result ≡ bytes.now }
    {
        Text { bytes }
    }

    pub fn bytes(&self) -> &'a [u8]
        ensures { result.now ≡ self.now }
    {
        self.bytes
    }
}

/// Structs of one kind, in order. Contracts see them as a list.
#[derive(Debug, Drop)]
pub struct StructList<T: Drop> {
    structs: Vec<T>,
}

impl<T: Drop> Model for StructList<T> {
    ghost use Rattle.std.specs.Prelude.{List};
    ghost use Rattle.std.specs.Coded.{coded_list};

    ghost Value = { List T };

    ghost coded = { coded_list T.code };

    ghost view = { λ l. l.structs.items };
}

impl<T: Drop> StructList<T> {
    pub fn new(alloc: Global) -> StructList<T>
        ensures { result ≡ [] }
    {
        StructList {
            structs: Vec::new(alloc),
        }
    }

    pub fn push(&mut self, next: T) -> Result<(), AllocFailed<T>>
        ensures ok { OnOk result (self.new ≡ self.old ++ next ∷ []) }
        ensures err { OnErr result (self.new ≡ self.old) }
    {
        self.structs.push(next)
    }

    pub fn as_slice(&self) -> &[T]
        ensures { result.now ≡ self.now }
    {
        self.structs.as_slice()
    }

    pub fn into_vec(self) -> Vec<T>
        ensures { result.items ≡ self }
    {
        let StructList { structs } = self;
        structs
    }
}
