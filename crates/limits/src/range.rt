// The range in which a product may trade, both ends included.
ghost use Rattle.std.specs.Prelude.{◌≡◌};
ghost use Rattle.limits.specs.Ranges.{tradeable_range, tradeable};

use terms::price::Price;

#[derive(Clone, Copy, PartialEq, Eq, Debug)]
pub struct Range {
    pub low: Price,
    pub high: Price,
}

impl Range {
    // So many ticks either side of the reference price.
    pub fn around(reference: Price, daily_ticks: u32) -> Range
        ensures { result ≡ tradeable_range reference.ticks daily_ticks }
    {
        Range {
            low: reference.lowered(daily_ticks),
            high: reference.raised(daily_ticks),
        }
    }

    pub fn holds(self, price: Price) -> bool
        ensures { result ≡ tradeable self.low.ticks self.high.ticks price.ticks }
    {
        self.low <= price && price <= self.high
    }
}
