//! Tests of the devices in memory, of the keepers and of new files: what their clauses don't say. Each public call succeeds with
//! ample memory, and each that can fail fails once and then works.
#![tactic(auto)]

#[cfg(test)]
mod disks;
#[cfg(test)]
mod keepers;
#[cfg(test)]
mod streams;
#[cfg(test)]
mod written;
