// One product's desk: its figures, and the orders that rest or arrive in its book.
#![tactic(auto)]

pub mod desk;
