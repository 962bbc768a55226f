// Worked figures of the listing, the established market price and the verdict.
#![tactic(auto)]

#[cfg(test)]
mod listings;
#[cfg(test)]
mod options;
#[cfg(test)]
mod prices;
#[cfg(test)]
mod sample;
#[cfg(test)]
mod verdicts;
