// An order that arrives under its number.
use crate::incoming::Incoming;
use orders::order::Order;
use orders::side::BookSide;
use tape::trade::Trade;
use terms::mark::Mark;
use terms::quantity::Quantity;
use terms::side::Side;
use terms::stamp::Stamp;

#[derive(Clone, Copy, PartialEq, Eq, Debug)]
pub struct Arriving {
    pub number: Stamp,
    pub order: Incoming,
}

impl Arriving {
    ghost use Rattle.std.specs.Prelude.{◌≡◌};
    ghost use Rattle.orders.specs.Orders.{row_of as order_row};
    ghost use Rattle.orders.specs.Queue.{slot};
    ghost use Rattle.tape.specs.Trades.{row_of};
    ghost use Rattle.book.specs.Walks.{fill_of, trade_by};

    // It trades so much with an order that rests on the side S, at the resting price.
    pub(crate) fn trade<S: BookSide>(self, resting: Order, quantity: Quantity) -> Trade
        ensures { row_of result ≡ trade_by S.BookSide.code self (fill_of (slot 0 (order_row resting)) quantity.lots) }
    {
        let rests = (resting.number, resting.participant);
        let arrives = (self.number, self.order.participant);
        let ((buy, buyer), (sell, seller)) = match S::side() {
            Side::Buy => (rests, arrives),
            Side::Sell => (arrives, rests),
        };
        Trade {
            product: self.order.product,
            time: self.order.time,
            price: resting.price,
            quantity,
            buy,
            sell,
            buyer,
            seller,
            established: self.order.established,
            no_bust: self.order.no_bust,
            mark: Mark::Stands,
            day: self.order.day,
        }
    }
}
