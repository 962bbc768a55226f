// An order is amended: what stops it, and what becomes of it.
#![tactic(auto)]

mod amended;
pub mod amendments;
mod asking;
