// The sweep price: the furthest that an arriving order may reach.
ghost use Rattle.std.specs.Prelude.{◌≡◌};
ghost use Rattle.terms.specs.Checks.{answered};
ghost use Rattle.limits.specs.Sweeps.{anchor_price, sweep_price, beyond, sweep_check, limit_held};

use terms::price::Price;
use terms::refusal::Refusal;
use terms::side::Side;

// The price that a sweep starts from: the best price offered on the opposite side, else the reference price.
pub fn anchor(best_opposite: Option<Price>, reference: Price) -> Price
    ensures { result ≡ anchor_price best_opposite reference }
{
    best_opposite.unwrap_or(reference)
}

pub fn sweep_price(side: Side, anchor: Price, ticks: u32) -> Price
    ensures { result ≡ sweep_price side anchor ticks }
{
    match side {
        Side::Buy => anchor.raised(ticks),
        Side::Sell => anchor.lowered(ticks),
    }
}

// Whether an order's price goes further than a limit: above it for a buy, below it for a sell.
pub fn is_beyond(side: Side, price: Price, limit: Price) -> bool
    ensures { result ≡ beyond side price limit }
{
    match side {
        Side::Buy => price > limit,
        Side::Sell => price < limit,
    }
}

// A limit is held to the sweep price; a market order has none, and is at it.
pub fn hold_limit(side: Side, limit: Option<Price>, sweep: Price) -> Result<(), Refusal>
    ensures { result ≡ answered (limit_held side limit sweep) tt }
{
    match limit {
        Some(price) if is_beyond(side, price, sweep) => Err(Refusal::BeyondSweep(sweep)),
        _ => Ok(()),
    }
}

// An order's price against its sweep price, as the book and the reference price set it.
pub fn hold_to_sweep(
    side: Side,
    price: Price,
    best_opposite: Option<Price>,
    reference: Price,
    ticks: u32,
) -> Result<(), Refusal>
    ensures { result ≡ answered (sweep_check side price (sweep_price side (anchor_price best_opposite reference) ticks)) tt }
{
    let sweep = sweep_price(side, anchor(best_opposite, reference), ticks);
    hold_limit(side, Some(price), sweep)
}
