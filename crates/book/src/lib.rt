// Matching: an arriving order goes down the opposite queue, inside two price ends.
#![tactic(auto)]

pub mod arriving;
pub mod coming;
pub mod entering;
pub mod incoming;
pub mod laws;
pub mod outcome;
pub mod plan;
pub mod sweep;
