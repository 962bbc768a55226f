// A listed product and what the market keeps for it, as plain numbers.
ghost use Rattle.std.specs.Prelude.{◌≡◌};

use crate::entry::Listed;
use terms::price::Price;

#[derive(Clone, Copy, PartialEq, Eq, Debug)]
pub struct Product {
    pub listed: Listed,
    // wider daily ticks for a time; with none the listed ones are in force
    pub frenetic: Option<u32>,
    // the reference price, in ticks
    pub reference: u32,
    pub halted: bool,
    // how many records the tape held at the latest adjustment
    pub adjusted: u32,
}

impl Product {
    ghost use Rattle.terms.specs.Checked.{price_at};
    ghost use Rattle.listing.specs.Product.{fresh, ticks_in_force};

    // As a market starts with it.
    pub(crate) const fn fresh(listed: Listed) -> Product
        ensures { result ≡ fresh listed }
    {
        Product {
            listed,
            frenetic: None,
            reference: 0,
            halted: false,
            adjusted: 0,
        }
    }

    // The reference price, cut to the prices that exist.
    pub fn reference_price(self) -> Price
        ensures { result ≡ price_at self.reference }
    {
        Price::ZERO.raised(self.reference)
    }

    // The daily ticks in force.
    pub fn daily_ticks(self) -> u32
        ensures { result ≡ ticks_in_force self }
    {
        self.frenetic.unwrap_or(self.listed.daily)
    }
}
