//! Tests of values and their texts, of the kinds of a list, and of whole runs.
#![tactic(auto)]

#[cfg(test)]
mod kinds;
#[cfg(test)]
mod runs;
#[cfg(test)]
mod scripts;
#[cfg(test)]
mod trial;
#[cfg(test)]
mod values;
