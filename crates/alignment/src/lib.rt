// The check of a crest, a record of a file where it lies, and record bytes written to a file.
#![tactic(auto)]

pub mod check;
pub mod part;
pub mod write;
