//! Tests of the keeper over a database in memory: what it keeps is what the rows in memory become.
#![tactic(auto)]

#[cfg(test)]
mod keepers;
#[cfg(test)]
mod rows;
