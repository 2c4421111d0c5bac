ghost use Rattle.std.specs.Prelude.{◌≡◌};
ghost use Rattle.lake_top.specs.Run.{halt_line, status_of};

use crate::status::Status;

/// Why no more of a script is answered.
#[derive(Clone, Copy, Debug, PartialEq, Eq)]
pub enum Halt {
    Read,
    Write,
    Memory,
    TooLong,
}

impl Halt {
    pub fn status(self) -> Status
        ensures { result ≡ status_of self }
    {
        match self {
            Halt::Read => Status::ReadFault,
            Halt::Write => Status::WriteFault,
            Halt::Memory => Status::Memory,
            Halt::TooLong => Status::TooLong,
        }
    }

    /// The line without a head that is written last.
    pub fn last_line(self) -> &'static [u8]
        ensures { result.now ≡ halt_line self }
    {
        match self {
            Halt::Read => b"! read fault\n",
            Halt::Write => b"",
            Halt::Memory => b"! no memory\n",
            Halt::TooLong => b"! too long\n",
        }
    }
}
