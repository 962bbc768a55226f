// Worked examples and edges of the terms, the price limits and the pricing models, run as tests.
#![tactic(auto)]

#[cfg(test)]
mod tests;
