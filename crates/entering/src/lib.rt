// An order is entered: what stops it, and what becomes of it.
#![tactic(auto)]

pub mod admission;
pub mod admitted;
pub mod entries;
pub mod noted;
