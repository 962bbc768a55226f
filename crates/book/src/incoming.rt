// An order as it is entered, before it has a number.
ghost use Rattle.std.specs.Prelude.{◌≡◌, ◌≤◌, true};
ghost use Rattle.tape.specs.Ranges.{last_product, widest_no_bust};

use orders::order::Order;
use terms::duration::Duration;
use terms::participant::Participant;
use terms::price::Price;
use terms::quantity::Quantity;
use terms::side::Side;
use terms::stamp::Stamp;

#[derive(Clone, Copy, PartialEq, Eq, Debug)]
pub struct Incoming {
    pub side: Side,
    pub product: u32,
    pub participant: Participant,
    pub limit: Price,
    pub quantity: Quantity,
    pub duration: Duration,
    pub time: u32,
    pub day: u32,
    pub established: Price,
    pub no_bust: u32,
    ghost listed: { product ≤ last_product },
    ghost narrow: { no_bust ≤ widest_no_bust },
}

impl Incoming {
    ghost use Rattle.orders.specs.Orders.{row_of};
    ghost use Rattle.terms.specs.Durations.{may_rest};
    ghost use Rattle.book.specs.Entries.{resting_row};

    // What is left of it comes to rest: its number is its place in time too.
    pub(crate) fn resting(self, number: Stamp, rest: Quantity) -> Order
        requires { may_rest self.duration ≡ true }
        ensures { row_of result ≡ resting_row self number.number rest.lots }
    {
        Order {
            number,
            place: number,
            product: self.product,
            side: self.side,
            price: self.limit,
            rest,
            participant: self.participant,
            duration: self.duration,
            entered: self.day,
        }
    }
}
