// An amended order with a new price comes back to its book: it trades, and what is left of it rests again where it stood.
#![tactic(auto)]

ghost use Rattle.std.specs.Prelude.{◌≡◌, slice_set};
ghost use Rattle.orders.specs.Orders.{row_of, come_back_row};
ghost use Rattle.orders.specs.Rows.{free};
ghost use Rattle.terms.specs.Checked.{lots_left};
ghost use Rattle.book.specs.Entries.{settled};
ghost use Rattle.returning.specs.Returns.{ComesBack, ComesBackFrom};

use book::arriving::Arriving;
use book::outcome::Swept;
use book::plan::plan;
use book::sweep::{has_room, sweep};
use limits::range::Range;
use orders::order::Entry;
use orders::resting::{clear, put};
use orders::row::OrderRow;
use orders::side::{BookSide, Buys, Sells};
use tape::Tape;
use terms::price::Price;
use terms::quantity::Quantity;
use terms::refusal::Refusal;
use terms::side::Side;
use terms::stamp::Stamp;

// The old place is free, or what is left of the order stands there again.
fn settle(table: &mut [OrderRow], e: Entry, place: Stamp, price: Price, rest: Option<Quantity>)
    ensures { table.new ≡ settled (come_back_row (row_of e.order) place.number price.ticks) e.index (lots_left rest) (slice_set table.old e.index free) }
{
    clear(table, e.index);
    if let Some(rest) = rest {
        put(table, e.index, e.order.moved(place, price, rest));
    }
}

// The order meets the queue of the other side, S.
fn come_back_against<S: BookSide, T: Tape>(
    table: &mut [OrderRow],
    tape: &mut T,
    stamp: u32,
    e: Entry,
    a: Arriving,
    range: Range,
) -> Result<Swept, Refusal>
    ensures { ComesBack S.BookSide.reaches S.BookSide.code S.BookSide.first T.Tape.records T.Tape.space stamp e.index (row_of e.order) a range table.old tape.old result table.new tape.new }
{
    let Some(place) = Stamp::after(stamp) else {
        let planned = plan::<S>(table, a.order, range);
        if !has_room(tape, a.order.time, planned.trades) {
            return Err(Refusal::TapeFull(planned.trades));
        }
        return Err(Refusal::Exhausted);
    };
    let swept = sweep::<S, T>(table, tape, a, range, false)?;
    settle(table, e, place, a.order.limit, swept.rest);
    Ok(swept)
}

// The order that stood at e takes the stamp after the last one given as its place in time; a is that order as it arrives.
pub fn come_back<T: Tape>(
    table: &mut [OrderRow],
    tape: &mut T,
    stamp: u32,
    e: Entry,
    a: Arriving,
    range: Range,
) -> Result<Swept, Refusal>
    ensures { ComesBackFrom T.Tape.records T.Tape.space stamp e.order.side e.index (row_of e.order) a range table.old tape.old result table.new tape.new }
{
    match e.order.side {
        Side::Buy => come_back_against::<Sells, T>(table, tape, stamp, e, a, range),
        Side::Sell => come_back_against::<Buys, T>(table, tape, stamp, e, a, range),
    }
}
