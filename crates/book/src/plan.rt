// What an arriving order would do, with nothing changed.
ghost use Rattle.std.specs.Prelude.{◌≡◌, length};
ghost use Rattle.terms.specs.Checked.{lots_left};
ghost use Rattle.book.specs.Sweeps.{due};
ghost use Rattle.book.specs.Walks.{matching};

use crate::coming::{Next, coming};
use crate::incoming::Incoming;
use crate::outcome::Plan;
use limits::range::Range;
use orders::order::Entry;
use orders::row::OrderRow;
use orders::side::BookSide;

pub fn plan<S: BookSide>(table: &[OrderRow], o: Incoming, range: Range) -> Plan
    ensures trades { result.trades ≡ length (matching S.BookSide.reaches S.BookSide.code S.BookSide.first o range table.now).fills }
    ensures rest { lots_left result.rest ≡ (matching S.BookSide.reaches S.BookSide.code S.BookSide.first o range table.now).rest }
    ensures halted { result.halted ≡ (matching S.BookSide.reaches S.BookSide.code S.BookSide.first o range table.now).halted }
{
    let mut rest = Some(o.quantity);
    let mut trades: u32 = 0;
    let mut cursor: Option<Entry> = None;
    let halted = 'down: loop {
        let Some(left) = rest else {
            break 'down false;
        };
        let e = match coming::<S>(table, o, range, cursor) {
            Next::Nothing => break 'down false,
            Next::Outside => break 'down true,
            Next::Match(e) => e,
        };
        rest = left.less(e.order.rest);
        trades += 1;
        cursor = Some(e);
    };
    Plan {
        trades,
        rest,
        halted,
    }
}

// The same for an order that may have to trade whole: it does so, or is killed.
pub(crate) fn plan_due<S: BookSide>(
    table: &[OrderRow],
    o: Incoming,
    range: Range,
    whole: bool,
) -> Plan
    ensures trades { result.trades ≡ length (due whole (matching S.BookSide.reaches S.BookSide.code S.BookSide.first o range table.now)).fills }
    ensures rest { lots_left result.rest ≡ (due whole (matching S.BookSide.reaches S.BookSide.code S.BookSide.first o range table.now)).rest }
    ensures halted { result.halted ≡ (due whole (matching S.BookSide.reaches S.BookSide.code S.BookSide.first o range table.now)).halted }
{
    let planned = plan::<S>(table, o, range);
    if whole && planned.rest.is_some() {
        return Plan {
            trades: 0,
            rest: None,
            halted: false,
        };
    }
    planned
}
