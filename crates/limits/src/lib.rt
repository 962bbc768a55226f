// How far a price may go: the sweep price of an arriving order, and the range in which a product may trade.
#![tactic(auto)]

pub mod range;
pub mod sweep;
