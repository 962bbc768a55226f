// Words and numbers of a line of text.
#![tactic(auto)]

pub mod number;
pub mod words;
