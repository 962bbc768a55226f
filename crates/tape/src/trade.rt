// A trade: two orders met at a price.
ghost use Rattle.std.specs.Prelude.{◌≤◌};
ghost use Rattle.tape.specs.Ranges.{last_product, widest_no_bust};

use terms::mark::Mark;
use terms::participant::Participant;
use terms::price::Price;
use terms::quantity::Quantity;
use terms::stamp::Stamp;

#[derive(Clone, Copy, PartialEq, Eq, Debug)]
pub struct Trade {
    pub product: u32,
    pub time: u32,
    pub price: Price,
    pub quantity: Quantity,
    // the two orders, by their numbers
    pub buy: Stamp,
    pub sell: Stamp,
    pub buyer: Participant,
    pub seller: Participant,
    // the established market price as the trade found it, and how far from it nothing is taken back
    pub established: Price,
    pub no_bust: u32,
    pub mark: Mark,
    pub day: u32,
    ghost listed: { product ≤ last_product },
    ghost narrow: { no_bust ≤ widest_no_bust },
}
