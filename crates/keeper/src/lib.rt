//! A store for the catalogue that keeps a batch whole or not at all, and forms of it in memory.
#![tactic(auto)]

mod fault;
mod keeper_trait;
mod mem_keeper;
mod sure_keeper;

pub use fault::KeepNo;
pub use keeper_trait::Keeper;
pub use mem_keeper::MemKeeper;
pub use sure_keeper::SureKeeper;
