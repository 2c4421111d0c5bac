//! What a commit of creations, drops and inserts makes of a version.
#![tactic(auto)]

pub mod laws;
