// What a walk keeps, as a theorem over every table and arriving order.
ghost use Rattle.orders.specs.Queue.{queue};
ghost use Rattle.book.specs.Laws.{WalkLaws};
ghost use Rattle.book.specs.Walks.{matching};

use crate::incoming::Incoming;
use limits::range::Range;
use orders::row::OrderRow;
use orders::side::BookSide;

pub fn matching_laws<S: BookSide>(table: &[OrderRow], o: Incoming, range: Range)
    ensures { WalkLaws S.BookSide.reaches range.low.ticks range.high.ticks o.limit.ticks o.quantity.lots (queue S.BookSide.code S.BookSide.first o.product table.now) (matching S.BookSide.reaches S.BookSide.code S.BookSide.first o range table.now) }
{}
