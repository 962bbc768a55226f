// What comes next on the way down a queue.
ghost use Rattle.std.specs.Prelude.{◌≡◌};
ghost use Rattle.orders.specs.Queue.{behind, head, slot_of};
ghost use Rattle.std.specs.Option.{option_map};
ghost use Rattle.book.specs.Coming.{Comes};

use crate::incoming::Incoming;
use limits::range::Range;
use orders::order::Entry;
use orders::row::OrderRow;
use orders::search::seek;
use orders::side::BookSide;

#[derive(Clone, Copy, PartialEq, Eq, Debug)]
pub enum Next {
    // no order that the limit reaches
    Nothing,
    // one that the limit reaches, outside the price ends
    Outside,
    Match(Entry),
}

// What an order of this limit meets first, behind a cursor; with none, in the whole queue.
pub(crate) fn coming<S: BookSide>(
    table: &[OrderRow],
    o: Incoming,
    range: Range,
    after: Option<Entry>,
) -> Next
    ensures { Comes S.BookSide.reaches o.limit.ticks range (head (behind S.BookSide.code S.BookSide.first o.product (option_map slot_of after) table.now)) table.now result }
{
    match seek::<S>(table, o.product, after) {
        Some(e) if S::reached(o.limit, e.order.price) => if range.holds(e.order.price) {
            Next::Match(e)
        } else {
            Next::Outside
        },
        _ => Next::Nothing,
    }
}
