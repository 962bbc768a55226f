// Why a listing or a ladder of rungs is refused.
ghost use Rattle.std.specs.Prelude.{◌≡◌};
ghost use Rattle.terms.specs.Numbers.{malformed_number};

#[derive(Clone, Copy, PartialEq, Eq, Debug)]
pub enum Malformed {
    // fewer than 1 or more than 32 products or rungs
    Count,
    // a day limit out of 1 to 365
    DayLimit,
    // the lowest product or rung at fault
    Entry(u32),
}

impl From<Malformed> for u32 {
    ghost from_gives = { λ fault n. n ≡ malformed_number fault };

    fn from(fault: Malformed) -> u32 {
        match fault {
            Malformed::Count => 32,
            Malformed::DayLimit => 33,
            Malformed::Entry(n) => n,
        }
    }
}
