// An order is entered: it trades, and what is left of it rests.
ghost use Rattle.std.specs.Prelude.{◌≡◌, ℕ, ◌<◌, true};
ghost use Rattle.terms.specs.Checked.{lots_left};
ghost use Rattle.terms.specs.Durations.{may_rest};
ghost use Rattle.book.specs.Entries.{trades_entered, Enters, EntersFrom, resting_row, settled};
ghost use Rattle.book.specs.Sweeps.{RoomLeft};

use crate::arriving::Arriving;
use crate::incoming::Incoming;
use crate::outcome::Receipt;
use crate::plan::plan_due;
use crate::sweep::{has_room, lots, sweep};
use limits::range::Range;
use orders::questions::free_place;
use orders::resting::put;
use orders::row::OrderRow;
use orders::side::{BookSide, Buys, Sells};
use tape::Tape;
use terms::quantity::Quantity;
use terms::refusal::Refusal;
use terms::side::Side;
use terms::stamp::Stamp;

// What is left of an order rests at this index.
fn settle(table: &mut [OrderRow], index: usize, o: Incoming, number: Stamp, rest: Option<Quantity>)
    requires { 0 < lots_left rest → may_rest o.duration ≡ true }
    ensures { table.new ≡ settled (resting_row o number.number) index (lots_left rest) table.old }
{
    if let Some(rest) = rest {
        put(table, index, o.resting(number, rest));
    }
}

// The order meets the queue of the other side, S.
fn enter_against<S: BookSide, T: Tape>(
    table: &mut [OrderRow],
    tape: &mut T,
    products: u32,
    stamp: u32,
    o: Incoming,
    range: Range,
) -> Result<Receipt<bool>, Refusal>
    ensures entered { Enters S.BookSide.reaches S.BookSide.code S.BookSide.first T.Tape.records T.Tape.space products stamp o range table.old tape.old result table.new tape.new }
    ensures room { RoomLeft (T.Tape.space tape.old) (trades_entered result) (T.Tape.space tape.new) }
{
    if o.product >= products {
        return Err(Refusal::NotListed(o.product));
    }
    let index = free_place(table, products)?;
    let whole = !o.duration.may_rest();
    let Some(number) = Stamp::after(stamp) else {
        let trades = plan_due::<S>(table, o, range, whole).trades;
        if !has_room(tape, o.time, trades) {
            return Err(Refusal::TapeFull(trades));
        }
        return Err(Refusal::Exhausted);
    };
    let arriving = Arriving { number, order: o };
    let swept = sweep::<S, T>(table, tape, arriving, range, whole)?;
    settle(table, index, o, number, swept.rest);
    Ok(Receipt {
        number: number.number(),
        traded: swept.traded,
        rest: lots(swept.rest),
        trades: swept.trades,
        halt: swept.halted,
    })
}

// The order takes the stamp after the last one given as its number.
pub fn enter<T: Tape>(
    table: &mut [OrderRow],
    tape: &mut T,
    products: u32,
    stamp: u32,
    o: Incoming,
    range: Range,
) -> Result<Receipt<bool>, Refusal>
    ensures entered { EntersFrom T.Tape.records T.Tape.space products stamp o.side o range table.old tape.old result table.new tape.new }
    ensures room { RoomLeft (T.Tape.space tape.old) (trades_entered result) (T.Tape.space tape.new) }
{
    match o.side {
        Side::Buy => enter_against::<Sells, T>(table, tape, products, stamp, o, range),
        Side::Sell => enter_against::<Buys, T>(table, tape, products, stamp, o, range),
    }
}
