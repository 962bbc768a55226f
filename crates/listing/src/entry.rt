// One entry of a listing, as plain numbers, whether it keeps its rules or not.
use crate::kind::Kind;

#[derive(Clone, Copy, PartialEq, Eq, Debug)]
pub struct Listed {
    pub kind: Kind,
    // all three in ticks
    pub sweep: u32,
    pub daily: u32,
    pub no_bust: u32,
}

impl Listed {
    pub const WIDEST_SWEEP: u32 = 1_000;

    pub const WIDEST_DAILY: u32 = 100_000;

    pub const WIDEST_NO_BUST: u32 = 100_000;
}
