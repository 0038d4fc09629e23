// The crest file: its blocks and their refusals, where its records start, and the file of record bytes.
#![tactic(auto)]

pub mod check;
pub mod write;
