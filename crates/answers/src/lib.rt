//! The value, the first fault, or want of memory: what a call answers of a definition that gives a value or a fault.
//!
//! `specs/Answers.antt` has the words that contracts cite, for every type of faults alike, and
//! `proofs/AnswerLemmas.antt` the lemmas on them. There is no code.
#![tactic(auto)]
