// The unit's command line: a line of text to a command, and a command to its answer.
#![tactic(auto)]

pub mod command;
pub mod parse;
