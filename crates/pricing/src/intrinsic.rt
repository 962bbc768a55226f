// The intrinsic model: what an option is in the money, or 0.
ghost use Rattle.std.specs.Prelude.{◌≡◌};
ghost use Rattle.pricing.specs.Money.{moneyness, intrinsic_value};
ghost use Rattle.std.proofs.Common.{rules};

use crate::model::PricingModel;
use terms::price::Price;
use terms::right::Right;

#[derive(Clone, Copy)]
pub struct Intrinsic;

impl PricingModel for Intrinsic {
    ghost tells = { λ _ right strike underlying. intrinsic_value (moneyness right strike underlying) };

    ghost priced = { Prim.search rules };

    fn price(&self, right: Right, strike: Price, underlying: Price) -> Price {
        match right {
            Right::Call => underlying.lowered(strike.ticks()),
            Right::Put => strike.lowered(underlying.ticks()),
        }
    }
}
