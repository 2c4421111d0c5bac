//! Tests of the devices of the system, on a real folder and real streams, and of the keeper over a database in memory.
#![tactic(auto)]

#[cfg(test)]
mod folders;
#[cfg(test)]
mod small;
