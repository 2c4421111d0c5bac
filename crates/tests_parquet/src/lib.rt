//! Tests of the Parquet crates: vectors, each fault once, and each public call once.
#![tactic(auto)]

#[cfg(test)]
mod chunks;
#[cfg(test)]
mod encodings;
#[cfg(test)]
mod files;
#[cfg(test)]
mod footers;
#[cfg(test)]
mod thrift;
#[cfg(test)]
mod writing;
