//! What the twelve rules of a sane catalogue say (in specs/), and the tests that they share: the first row of a table that
//! is bad by itself, that is one too many in its group, or that refers to a row that isn't seen with it.
#![tactic(auto)]

mod bad_row;
mod checked;
mod crowded;
mod dated;
mod kept;
pub mod laws;
mod limits;
mod lookup;
mod meeting;
mod order;
mod readable;
mod refer;
mod rule;

pub use bad_row::BadRow;
pub use checked::{CheckedRule, first_checked};
pub use crowded::{Grouped, first_bare, first_crowded, span_with_table};
pub use dated::Dated;
pub use kept::{Kept, first_kept, kept_of, newest_of};
pub use limits::{MAX_COUNTER, MAX_FIELD_ID};
pub use lookup::{is_field_past, newest_row, rows_of_column};
pub use meeting::meets_table;
pub use order::sooner;
pub use readable::is_unreadable;
pub use refer::{Refers, first_unmatched};
pub use rule::{RowRule, first_bad};
