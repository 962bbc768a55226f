// The calls around trading: days and sessions, reference prices, halts, and orders that leave.
#![tactic(auto)]

pub mod days;
pub mod halts;
pub mod references;
pub mod withdrawals;
