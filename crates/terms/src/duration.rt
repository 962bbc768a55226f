// How long an order may rest.
ghost use Rattle.std.specs.Prelude.{◌≡◌};
ghost use Rattle.terms.specs.Durations.{may_rest};

#[derive(Clone, Copy, PartialEq, Eq, Debug)]
pub enum Duration {
    // trades whole on arrival, or is killed
    Now,
    // until the session closes
    Session,
    // until the Day Session closes
    Day,
    // until the Day Session of this day closes
    Until(u32),
    // until it is withdrawn, or the market's day limit is reached
    UntilCancelled,
}

impl Duration {
    pub fn may_rest(self) -> bool
        ensures { result ≡ may_rest self }
    {
        match self {
            Duration::Now => false,
            Duration::Session => true,
            Duration::Day => true,
            Duration::Until(_) => true,
            Duration::UntilCancelled => true,
        }
    }
}
