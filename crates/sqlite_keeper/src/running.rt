use sqlite::{Alter, Error, Transaction};
use sqlite_value::value::ValueRef;

/// Runs a statement that changes one row. A batch that fits the tables has no other.
///
/// It has no clause, since a function that makes a call with the clauses of `execute` takes minutes to prove.
pub fn change_one<S: Alter>(
    tx: &mut Transaction<'_, S>,
    text: &str,
    params: &[ValueRef<'_>],
) -> Result<(), Error> {
    match tx.execute(text, params) {
        Ok(1) => Ok(()),
        Ok(_) => Err(Error::QueryReturnedNoRows),
        Err(error) => Err(error),
    }
}
