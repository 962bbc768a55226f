// Worked examples of matching, and the edges of tables, run as tests.
#![tactic(auto)]

#[cfg(test)]
mod figures;
#[cfg(test)]
mod tables;
