// One commodity's market: its state, its products and its pricing model; how it is made, and what is asked of it.
#![tactic(auto)]

pub mod market;
