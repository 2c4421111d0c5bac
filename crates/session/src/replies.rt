ghost use Rattle.std.specs.Prelude.{◌≡◌, false};
ghost use Rattle.lake_model.specs.Step as spec;
ghost use Rattle.txn_buf.specs.Turns.{answer_of};
ghost use Rattle.session.specs.Turns.{is_fault};

use lake_model::{Answer, Reply, WordsList};
use std::alloc::Global;
use txn_buf::TxnNo;

/// A reply without rows.
pub fn only(alloc: Global, last: Answer) -> Reply
    ensures { result ≡ spec.only last }
{
    Reply {
        rows: WordsList::new(alloc),
        last,
    }
}

/// The answer that a refusal of a statement is.
pub fn refusal(why: TxnNo) -> Answer
    ensures answer { result ≡ answer_of why }
    ensures spares { is_fault result ≡ false }
{
    match why {
        TxnNo::ReadOnly => Answer::ReadOnly,
        TxnNo::Mixed => Answer::Mixed,
        TxnNo::NoSchema { name } => Answer::NoSchema { name },
        TxnNo::NoTable { table } => Answer::NoTable { table },
        TxnNo::NoColumn { name } => Answer::NoColumn { name },
        TxnNo::NameUsed { name } => Answer::NameUsed { name },
        TxnNo::NotEmpty { name } => Answer::NotEmpty { name },
        TxnNo::NotNull { name } => Answer::NotNull { name },
        TxnNo::WrongType { name } => Answer::WrongType { name },
        TxnNo::NoPromotion { name } => Answer::NoPromotion { name },
        TxnNo::LastColumn => Answer::LastColumn,
        TxnNo::Arity { want, got } => Answer::Arity { want, got },
        TxnNo::ManyColumns => Answer::ManyColumns,
        TxnNo::TooLarge => Answer::TooLarge,
        TxnNo::Spent { counter } => Answer::Spent { counter },
        TxnNo::Memory => Answer::Memory,
    }
}
