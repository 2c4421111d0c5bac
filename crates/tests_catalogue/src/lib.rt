//! Tests of the catalogue's rules, of changes texts, of spans, of what a snapshot sees and of the opening of a lake. It has
//! no other functions.
#![tactic(auto)]

#[cfg(test)]
mod changes;
#[cfg(test)]
mod opening;
#[cfg(test)]
mod sane;
#[cfg(test)]
mod seen;
#[cfg(test)]
mod spans;
#[cfg(test)]
mod views;
