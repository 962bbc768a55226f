// Cases: a trade is questioned, and the exchange decides.
#![tactic(auto)]

pub mod case;
pub mod considering;
