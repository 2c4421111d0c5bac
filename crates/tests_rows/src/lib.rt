//! Tests of the catalogue's rows and of what is beside them: batches, the cells of inlined rows, statistics
//! of columns, rows laid by field id, tests of rows, and the rows that a transaction sees of a table. Each
//! public call succeeds with ample memory, and gives what its format's examples say.
#![tactic(auto)]

#[cfg(test)]
mod batches;
#[cfg(test)]
mod cells;
#[cfg(test)]
mod counts;
#[cfg(test)]
mod laid;
#[cfg(test)]
mod scans;
#[cfg(test)]
mod tested;
