// What every pricing model is: a function from right, strike and underlying price to a price.
ghost use Rattle.std.specs.Prelude.{◌≡◌, ℕ, ◌≤◌};
ghost use Rattle.terms.specs.Ranges.{highest_price};
ghost use Rattle.terms.specs.declared.right.Right.{Right as OptionRight};

use terms::price::Price;
use terms::right::Right;

pub trait PricingModel {
    // The price that the model tells of a right, a strike and an underlying price.
    ghost tells: { Self → OptionRight → ℕ → ℕ → ℕ };

    fn price(&self, right: Right, strike: Price, underlying: Price) -> Price
        ensures { result.ticks ≡ tells self.now right strike.ticks underlying.ticks };

    ghost priced: { (model : Self) (right : OptionRight) (strike underlying : ℕ) → strike ≤ highest_price → underlying ≤ highest_price → tells model right strike underlying ≤ highest_price };
}
