// An arriving order goes down the opposite queue, and its trades go on the tape.
ghost use Rattle.std.specs.Prelude.{◌≡◌, ℕ, ◌+◌, ◌<◌, ◌≤◌, List, [], ◌∷◌, ◌++◌, map, length};
ghost use Rattle.orders.specs.Orders.{row_of as order_row};
ghost use Rattle.tape.specs.Tapes.{latest};
ghost use Rattle.tape.specs.Trades.{row_of};
ghost use Rattle.terms.specs.Checked.{lots_left};
ghost use Rattle.book.specs.Sweeps.{RoomLeft, trades_told, takes, due, Sweeps};
ghost use Rattle.book.specs.Walks.{matching, row_left, filled, trade_by};

use crate::arriving::Arriving;
use crate::coming::{Next, coming};
use crate::outcome::{Plan, Swept};
use crate::plan::plan_due;
use limits::range::Range;
use orders::order::Order;
use orders::row::OrderRow;
use orders::side::BookSide;
use tape::Tape;
use tape::reading::last_time;
use tape::trade::Trade;
use terms::quantity::Quantity;
use terms::refusal::Refusal;

// What the place of an order holds once so much of it is filled.
fn left_row(order: Order, filled: Quantity) -> OrderRow
    requires { filled.lots ≤ order.rest.lots }
    ensures { result ≡ row_left (order_row order) filled.lots }
{
    order.rest.less(filled).map_or(
        OrderRow::FREE,
        |rest| OrderRow {
            rest: rest.lots(),
            ..order.into()
        },
    )
}

fn write<T: Tape>(tape: &mut T, trade: Trade)
    requires room { 0 < T.Tape.space tape.old }
    requires time { latest (T.Tape.records tape.old) ≤ trade.time }
    ensures records { T.Tape.records tape.new ≡ T.Tape.records tape.old ++ row_of trade ∷ [] }
    ensures room { RoomLeft (T.Tape.space tape.old) 1 (T.Tape.space tape.new) }
{
    tape.add(trade).unwrap();
}

// The walk itself, on a tape that takes all its trades.
fn run<S: BookSide, T: Tape>(
    table: &mut [OrderRow],
    tape: &mut T,
    a: Arriving,
    range: Range,
) -> Plan
    requires room { length (matching S.BookSide.reaches S.BookSide.code S.BookSide.first a.order range table.old).fills ≤ T.Tape.space tape.old }
    requires time { latest (T.Tape.records tape.old) ≤ a.order.time }
    ensures table { table.new ≡ filled (matching S.BookSide.reaches S.BookSide.code S.BookSide.first a.order range table.old).fills table.old }
    ensures tape { T.Tape.records tape.new ≡ T.Tape.records tape.old ++ map (trade_by S.BookSide.code a) (matching S.BookSide.reaches S.BookSide.code S.BookSide.first a.order range table.old).fills }
    ensures room { RoomLeft (T.Tape.space tape.old) (length (matching S.BookSide.reaches S.BookSide.code S.BookSide.first a.order range table.old).fills) (T.Tape.space tape.new) }
    ensures trades { result.trades ≡ length (matching S.BookSide.reaches S.BookSide.code S.BookSide.first a.order range table.old).fills }
    ensures rest { lots_left result.rest ≡ (matching S.BookSide.reaches S.BookSide.code S.BookSide.first a.order range table.old).rest }
    ensures halted { result.halted ≡ (matching S.BookSide.reaches S.BookSide.code S.BookSide.first a.order range table.old).halted }
{
    let mut rest = Some(a.order.quantity);
    let mut trades: u32 = 0;
    let halted = 'sweep: loop {
        let Some(left) = rest else {
            break 'sweep false;
        };
        let e = match coming::<S>(table, a.order, range, None) {
            Next::Nothing => break 'sweep false,
            Next::Outside => break 'sweep true,
            Next::Match(e) => e,
        };
        let m = left.least(e.order.rest);
        table[e.index] = left_row(e.order, m);
        write::<T>(tape, a.trade::<S>(e.order, m));
        rest = left.less(m);
        trades += 1;
    };
    Plan {
        trades,
        rest,
        halted,
    }
}

// How many lots are left.
pub fn lots(rest: Option<Quantity>) -> u32
    ensures { result ≡ lots_left rest }
{
    rest.map_or(0, Quantity::lots)
}

// Whether the tape takes so many trades at this time.
pub fn has_room<T: Tape>(tape: &T, time: u32, trades: u32) -> bool
    ensures { result ≡ takes (T.Tape.space tape.now) (T.Tape.records tape.now) time trades }
{
    trades == 0 || (trades <= tape.room() && last_time(tape) <= time)
}

// An arriving order trades down the queue of the other side, S; one that must trade whole does so or is killed.
pub fn sweep<S: BookSide, T: Tape>(
    table: &mut [OrderRow],
    tape: &mut T,
    a: Arriving,
    range: Range,
    whole: bool,
) -> Result<Swept, Refusal>
    ensures made { Sweeps T.Tape.records T.Tape.space S.BookSide.code a (due whole (matching S.BookSide.reaches S.BookSide.code S.BookSide.first a.order range table.old)) table.old tape.old result table.new tape.new }
    ensures room { RoomLeft (T.Tape.space tape.old) (trades_told result) (T.Tape.space tape.new) }
{
    let planned = plan_due::<S>(table, a.order, range, whole);
    if !has_room(tape, a.order.time, planned.trades) {
        return Err(Refusal::TapeFull(planned.trades));
    }
    if planned.trades == 0 {
        return Ok(Swept {
            traded: 0,
            rest: planned.rest,
            trades: 0,
            halted: planned.halted,
        });
    }
    let done = run::<S, T>(table, tape, a, range);
    Ok(Swept {
        traded: a.order.quantity.lots() - lots(done.rest),
        rest: done.rest,
        trades: done.trades,
        halted: done.halted,
    })
}
