//! The first row of a catalogue that breaks a rule of a sane one: the twelve rules in their order.
#![tactic(auto)]

mod sane;

pub use cat_rules::BadRow;
pub use sane::first_bad_row;
