// What the program prints: a line put together from words and numbers, and the lines.
#![tactic(auto)]

pub mod lines;
pub mod text;
