// Where a trade's price lies against the no-bust ticks around the established market price.
#[derive(Clone, Copy, PartialEq, Eq, Debug)]
pub enum Verdict {
    // at most the no-bust ticks away: the trade cannot be taken back
    Within,
    // further away: a request may open a case
    Beyond,
}
