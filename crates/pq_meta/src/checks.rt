//! Steps that several structs share.

ghost use Rattle.std.specs.Prelude.{◌≡◌};
ghost use Rattle.pq_meta.specs.Checks.{counted};

use crate::fault::MetaFault;

/// Whether the stated number is the number that was found.
pub fn check_count(want: u64, got: u64) -> Result<(), MetaFault>
    ensures { result ≡ counted want got }
{
    if want == got {
        Ok(())
    } else {
        Err(MetaFault::Count { want, got })
    }
}
