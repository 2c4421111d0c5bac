ghost use Rattle.std.specs.Prelude.{◌≡◌, IfOk};
ghost use Rattle.std.specs.String.{string_bytes};
ghost use Rattle.hex.specs.Hex.{IsBytes};

use crate::lists::Copied;
use std::alloc::{AllocError, Global};
use std::marker::Model;

/// Want of memory.
pub type NoMemory = AllocError;

/// A text. Contracts see its bytes.
#[derive(Debug, Drop)]
pub struct Words {
    text: String,
}

impl Model for Words {
    ghost use Rattle.std.specs.Prelude.{List, ℕ};
    ghost use Rattle.std.specs.String.{string_bytes};

    ghost Value = { List ℕ };

    ghost view = { λ w. string_bytes w.text };
}

impl Words {
    /// The text's own copy.
    pub fn of(alloc: Global, text: &str) -> Result<Words, NoMemory>
        ensures { IfOk result (λ words. words ≡ text.now) }
    {
        let text = String::from_str(alloc, text)?;
        Ok(Words { text })
    }

    /// The text itself. It takes no memory.
    pub fn from_string(text: String) -> Words
        ensures { result ≡ string_bytes text }
    {
        Words { text }
    }

    pub fn as_str(&self) -> &str
        ensures { result.now ≡ self.now }
    {
        self.text.as_str()
    }
}

impl Copied for Words {
    fn copy(&self, alloc: Global) -> Result<Words, NoMemory> {
        Words::of(alloc, self.as_str())
    }
}

/// Bytes. Contracts see them as a list.
#[derive(Debug, Drop)]
pub struct Blob {
    bytes: Vec<u8>,
}

impl Model for Blob {
    ghost use Rattle.std.specs.Prelude.{List, ℕ};
    ghost use Rattle.hex.specs.Hex.{IsBytes};

    ghost Value = { List ℕ };

    ghost view = { λ b. b.bytes.items };

    ghost invariant = { λ b. IsBytes b.bytes.items };
}

impl Blob {
    /// The bytes' own copy.
    pub fn of(alloc: Global, bytes: &[u8]) -> Result<Blob, NoMemory>
        ensures { IfOk result (λ blob. blob ≡ bytes.now) }
    {
        let bytes = Vec::from_slice(alloc, bytes)?;
        Ok(Blob { bytes })
    }

    /// These bytes. It takes no memory.
    pub fn from_vec(bytes: Vec<u8>) -> Blob
        ensures { result ≡ bytes.items }
    {
        Blob { bytes }
    }

    pub fn as_slice(&self) -> &[u8]
        ensures same { result.now ≡ self.now }
        ensures bytes { IsBytes self.now }
    {
        self.bytes.as_slice()
    }
}

impl Copied for Blob {
    fn copy(&self, alloc: Global) -> Result<Blob, NoMemory> {
        Blob::of(alloc, self.as_slice())
    }
}
