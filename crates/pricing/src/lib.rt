// Pricing models: what an option is worth, from its right, its strike and the price of its underlying.
#![tactic(auto)]

pub mod intrinsic;
pub mod ladder;
pub mod model;
pub mod money;
pub mod rung;
