// A resting order, and how it stands in a place of the table.
ghost use Rattle.std.specs.Prelude.{◌≡◌, true};
ghost use Rattle.terms.specs.Durations.{may_rest};

use crate::row::OrderRow;
use terms::duration::Duration;
use terms::field::Field;
use terms::participant::Participant;
use terms::price::Price;
use terms::quantity::Quantity;
use terms::side::Side;
use terms::stamp::{NeverGiven, Stamp};

#[derive(Clone, Copy, PartialEq, Eq, Debug)]
pub struct Order {
    pub number: Stamp,
    // where the order stands in time
    pub place: Stamp,
    pub product: u32,
    pub side: Side,
    pub price: Price,
    pub rest: Quantity,
    pub participant: Participant,
    pub duration: Duration,
    // the day of entry
    pub entered: u32,
    ghost lasting: { may_rest duration ≡ true },
}

impl Order {
    ghost use Rattle.orders.specs.Orders.{row_of, come_back_row};

    // The same order at a new place in time, a new price, and with so much of it left.
    pub fn moved(self, place: Stamp, price: Price, rest: Quantity) -> Order
        ensures { row_of result ≡ come_back_row (row_of self) place.number price.ticks rest.lots }
    {
        Order {
            number: self.number,
            place,
            product: self.product,
            side: self.side,
            price,
            rest,
            participant: self.participant,
            duration: self.duration,
            entered: self.entered,
        }
    }
}

// An order where it stands in the table.
#[derive(Clone, Copy, PartialEq, Eq, Debug)]
pub struct Entry {
    pub index: usize,
    pub order: Order,
}

// A place of which some number is out of its range: no order stands there.
#[derive(Clone, Copy, PartialEq, Eq, Debug)]
pub struct NoOrder;

impl From<Field> for NoOrder {
    fn from(_field: Field) -> NoOrder {
        NoOrder
    }
}

impl From<NeverGiven> for NoOrder {
    fn from(_never: NeverGiven) -> NoOrder {
        NoOrder
    }
}

impl TryFrom<OrderRow> for Order {
    ghost use Rattle.std.specs.Result.{result_ok};
    ghost use Rattle.orders.specs.Orders.{Checks};

    type Error = NoOrder;

    ghost try_from_gives = { λ row r. Checks row (result_ok r) };

    #[tactic(auto, unfolding(crate::specs::Rows::fair))]
    fn try_from(row: OrderRow) -> Result<Order, NoOrder> {
        Ok(Order {
            number: row.number.try_into()?,
            place: row.place.try_into()?,
            product: row.product,
            side: row.side().ok_or(NoOrder)?,
            price: row.price.try_into()?,
            rest: row.rest.try_into()?,
            participant: row.participant.try_into()?,
            duration: row.duration().ok_or(NoOrder)?,
            entered: row.entered,
        })
    }
}
