//! A run: sixteen sessions over one door, and the script that they answer.
#![tactic(auto)]

mod desk;
mod ending;
mod halt;
mod lines;
mod opening;
mod refusal;
mod script;
mod sessions;
mod sixteen;
mod skipped;
mod status;
mod top;

pub use opening::open_lake;
pub use status::Status;
pub use top::run;
