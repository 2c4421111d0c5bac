//! The laws of a commit of a list that creates, drops and inserts: its batch is lawful at any head, rows and files stand for the
//! lake after it with one version more, and it leaves what the next commit asks for.
#![tactic(auto)]

pub mod again;
pub mod parts;
pub mod stands;
