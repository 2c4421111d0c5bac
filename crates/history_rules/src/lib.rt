//! The first bad row of the rules of a sane catalogue about its history: the layout (rule 1), snapshots and their changes
//! texts (2), validity intervals (3) and the counters of the newest snapshot (12).
#![tactic(auto)]

mod counter_rule;
mod endings;
mod history_rule;
mod interval_rule;
mod layout_rule;
mod text_rule;

pub use counter_rule::first_bad_id;
pub use history_rule::first_bad_history;
pub use interval_rule::first_bad_interval;
pub use layout_rule::first_bad_layout;
