// The established market price of a product, and how far from it a trade may be taken back.
#![tactic(auto)]

pub mod moment;
pub mod verdict;
