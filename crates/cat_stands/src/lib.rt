//! When the catalogue's rows, with files, stand for the versions of a plain lake (in specs/), and what holds of such rows.
#![tactic(auto)]

pub mod laws;
