ghost use Rattle.std.specs.Prelude.{◌≡◌, ◌≤◌, ◌⊎◌};
ghost use Rattle.lake_io.specs.Causes.{Rose};
ghost use Rattle.lake_top.specs.Run as spec;
ghost use Rattle.lake_top.specs.declared.halt.Halt.TheVariants as halt;

use crate::halt::Halt;
use crate::refusal::{refusal_line, refusal_status};
use crate::status::Status;
use lake_io::{Sink, write_all};
use recover::OpenNo;
use std::alloc::Global;

/// Writes the last line of a status, which is a write fault where that fails.
pub fn told<O: Sink>(output: &mut O, line: &[u8], status: Status) -> Status
    ensures ends { spec.EndsWith status line.now result (O.taken output.old) (O.taken output.new) }
    ensures later { O.faults output.old ≤ O.faults output.new }
    ensures fault { result ≡ Status.WriteFault →
        (status ≡ Status.WriteFault) ⊎ Rose (O.faults output.old) (O.faults output.new) }
{
    match write_all(output, line) {
        Ok(()) => status,
        Err(_) => Status::WriteFault,
    }
}

/// Writes the last line of a run whose lake isn't opened. Where there is no memory for it, the status is that of
/// want of memory.
pub fn refused<O: Sink>(alloc: Global, output: &mut O, why: &OpenNo) -> Status
    ensures ends { spec.EndsWith (spec.refusal_status why.now) (spec.refusal_line why.now) result
        (O.taken output.old) (O.taken output.new)
        ⊎ spec.EndsWith Status.Memory (spec.halt_line halt.Memory) result (O.taken output.old) (O.taken output.new) }
    ensures later { O.faults output.old ≤ O.faults output.new }
    ensures fault { result ≡ Status.WriteFault → Rose (O.faults output.old) (O.faults output.new) }
{
    match refusal_line(alloc, why) {
        Ok(line) => told(output, line.as_slice(), refusal_status(why)),
        Err(_) => told(output, Halt::Memory.last_line(), Status::Memory),
    }
}
