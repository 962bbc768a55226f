// What a market lists, and what it keeps for each product.
#![tactic(auto)]

pub mod entry;
pub mod kind;
pub mod product;
pub mod products;
