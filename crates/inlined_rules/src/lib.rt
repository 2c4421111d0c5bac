//! The first bad row of the rule of a sane catalogue about rows that lie in the catalogue itself (rule 10).
#![tactic(auto)]

mod crowded_inlined;
mod inlined_rule;
mod stays;
mod term_index;
mod terms;

pub use inlined_rule::first_bad_inlined;
