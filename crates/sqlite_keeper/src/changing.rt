use crate::adding::add_row;
use crate::ending::end_row;
use crate::removing::remove_row;
use cat_rows::Batch;
use sqlite::{Alter, Error, Transaction};

/// Makes all changes of a batch: removals, then ends, then additions.
pub fn change_rows<S: Alter>(tx: &mut Transaction<'_, S>, batch: &Batch) -> Result<(), Error> {
    for key in batch.removes.as_slice() {
        remove_row(tx, key)?;
    }
    for (key, snapshot) in batch.ends.as_slice() {
        end_row(tx, key, *snapshot)?;
    }
    for row in batch.adds.as_slice() {
        add_row(tx, row)?;
    }
    Ok(())
}
