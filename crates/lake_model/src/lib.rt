//! The plain lake: what the lake is to its users, as definitions over lists, and the plain data that they speak of.
//! What the lake is names no file, no row of the catalogue and nothing of the code's structure. An entry of a history
//! carries such things for the proofs of the code alone (`specs/History.antt`).
#![tactic(auto)]

mod answer;
mod call;
mod change;
pub mod examples;
mod kinds;
pub mod laws;

pub use answer::{Answer, Counter, Reply, WordsList};
pub use call::{Call, CallReply, Entry, Loss, Open, SnapRow, SnapRows};
pub use change::{Change, ChangeList, Ref, RowRef, RowRefs, Txn};
pub use kinds::{drops_schema, drops_table, is_ref, kinds_of};
