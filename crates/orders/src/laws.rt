// What the queue is, as a theorem over every table.
ghost use Rattle.orders.specs.Priority.{QueueLaws};

use crate::row::OrderRow;
use crate::side::BookSide;

pub fn queue_laws<S: BookSide>(table: &[OrderRow], product: u32)
    ensures { QueueLaws S.BookSide.code S.BookSide.first product table.now }
{}
