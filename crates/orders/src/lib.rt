// The order table: resting orders in lent memory, searched by price-time priority.
#![tactic(auto)]

pub mod close;
pub mod full;
pub mod laws;
pub mod order;
pub mod questions;
pub mod resting;
pub mod row;
pub mod search;
pub mod side;

// How many places of a table count, at most.
pub const PLACES: usize = 65_536;
