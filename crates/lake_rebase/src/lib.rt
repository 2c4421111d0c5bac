//! What a list of changes makes of a state that came after its base, where it conflicts with nothing that came between
//! (in specs/): laws of the plain lake.
#![tactic(auto)]

pub mod laws;
