// One place of the order table as plain numbers: what memory holds, whether it is an order or not.
ghost use Rattle.std.specs.Prelude.{◌≡◌};
ghost use Rattle.orders.specs.Rows.{duration_code, duration_date};

use crate::order::Order;
use terms::duration::Duration;
use terms::side::Side;

#[derive(Clone, Copy, PartialEq, Eq, Debug)]
#[repr(C)]
pub struct OrderRow {
    pub number: u32,
    // where the order stands in time
    pub place: u32,
    pub product: u32,
    pub side: u32,
    pub price: u32,
    pub rest: u32,
    pub participant: u32,
    pub duration: u32,
    // the last day of an order until a date; 0 for every other
    pub date: u32,
    // the day of entry
    pub entered: u32,
}

impl OrderRow {
    ghost use Rattle.orders.specs.Rows.{side_of, duration_of};

    // What a place holds when no order does.
    pub const FREE: OrderRow = OrderRow {
        number: 0,
        place: 0,
        product: 0,
        side: 0,
        price: 0,
        rest: 0,
        participant: 0,
        duration: 0,
        date: 0,
        entered: 0,
    };

    pub(crate) fn side(self) -> Option<Side>
        ensures { result ≡ side_of self.side }
    {
        match self.side {
            0 => Some(Side::Buy),
            1 => Some(Side::Sell),
            _ => None,
        }
    }

    pub(crate) fn duration(self) -> Option<Duration>
        ensures { result ≡ duration_of self.duration self.date }
    {
        // dates apart, so that a search of mixed orders does not jump by a table at each place
        if self.duration == 3 {
            return Some(Duration::Until(self.date));
        }
        if self.date != 0 {
            return None;
        }
        match self.duration {
            1 => Some(Duration::Session),
            2 => Some(Duration::Day),
            4 => Some(Duration::UntilCancelled),
            _ => None,
        }
    }
}

// The code of a duration, and its date.
fn codes(duration: Duration) -> (u32, u32)
    ensures { result ≡ (duration_code duration, duration_date duration) }
{
    match duration {
        Duration::Now => (0, 0),
        Duration::Session => (1, 0),
        Duration::Day => (2, 0),
        Duration::Until(date) => (3, date),
        Duration::UntilCancelled => (4, 0),
    }
}

impl From<Order> for OrderRow {
    ghost use Rattle.std.specs.Prelude.{◌≡◌, true};
    ghost use Rattle.orders.specs.Orders.{row_of};
    ghost use Rattle.orders.specs.Rows.{fair};

    ghost from_gives = { λ o row. (row ≡ row_of o) × (fair row ≡ true) };

    #[tactic(auto, unfolding(crate::specs::Rows::fair))]
    fn from(order: Order) -> OrderRow {
        let (duration, date) = codes(order.duration);
        OrderRow {
            number: order.number.number(),
            place: order.place.number(),
            product: order.product,
            side: order.side as u32,
            price: order.price.ticks(),
            rest: order.rest.lots(),
            participant: order.participant.number(),
            duration,
            date,
            entered: order.entered,
        }
    }
}
