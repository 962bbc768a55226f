// What a market keeps, what its calls bring and answer: the words in which the rules of every call are written, and the checks that calls share.
#![tactic(auto)]

pub mod amendment;
pub mod crossing;
pub mod new_order;
pub mod order;
pub mod owners;
pub mod phases;
pub mod receipt;
pub mod state;
pub mod turns;
