// The two tapes on small memories, and one day of trades told alike by both.
#![tactic(auto)]

#[cfg(test)]
mod layout;
#[cfg(test)]
mod memories;
#[cfg(test)]
mod sample;
#[cfg(test)]
mod story;
