// The call that a program makes: one call of any kind on market, order table, tape and the cases kept beside them.
#![tactic(auto)]

pub mod apply;
pub mod call;
pub mod make;
