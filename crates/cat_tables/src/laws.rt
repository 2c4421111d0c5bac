//! What holds of a table after a batch. Each function's contract is a law, and its body is empty.

ghost use Rattle.cat_tables.specs.Laws.{PutsLast, SeesNow};

use crate::keyed::Keyed;
use crate::versioned::Versioned;

/// New rows whose keys are past all are appended.
pub fn puts_last<R: Keyed>()
    ensures { PutsLast R.key }
{}

/// What the next snapshot sees: the rows that end there are gone, and the new ones stand last.
pub fn sees_now<R: Versioned>()
    ensures { SeesNow R.key R.validity }
{}
