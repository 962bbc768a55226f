// How far an option is in the money.
ghost use Rattle.std.specs.Prelude.{◌≡◌};
ghost use Rattle.pricing.specs.Money.{moneyness};

use terms::price::Price;
use terms::right::Right;

pub fn moneyness(right: Right, strike: Price, underlying: Price) -> i32
    ensures { result ≡ moneyness right strike.ticks underlying.ticks }
{
    match right {
        Right::Call => underlying.ticks() as i32 - strike.ticks() as i32,
        Right::Put => strike.ticks() as i32 - underlying.ticks() as i32,
    }
}
