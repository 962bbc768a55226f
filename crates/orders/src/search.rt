// The first order of a queue, and the next one behind another.
ghost use Rattle.std.specs.Prelude.{◌≡◌, ◌<◌, min, ◌&&◌, length, IfSome, ◌==◌};
ghost use Rattle.std.specs.Option.{option_map, option_or};
ghost use Rattle.orders.specs.Queue.{before, past, wanted, offer, behind, head, queue, slot, slot_of, counted, most_places};
ghost use Rattle.orders.specs.Rows.{side_code};

use crate::PLACES;
use crate::order::{Entry, Order};
use crate::row::OrderRow;
use crate::side::BookSide;

fn ahead<S: BookSide>(a: Entry, b: Entry) -> bool
    ensures { result ≡ before S.BookSide.first (slot_of a) (slot_of b) }
{
    S::comes_first(a.order, b.order) || (!S::comes_first(b.order, a.order) && a.index < b.index)
}

fn is_behind<S: BookSide>(after: Option<Entry>, e: Entry) -> bool
    ensures { result ≡ past S.BookSide.first (option_map slot_of after) (slot_of e) }
{
    after.is_none_or(|cursor| ahead::<S>(cursor, e))
}

fn fits<S: BookSide>(e: Entry, product: u32, after: Option<Entry>) -> bool
    ensures { result ≡ (past S.BookSide.first (option_map slot_of after) (slot_of e) && (side_code e.order.side == S.BookSide.code && e.order.product == product)) }
{
    is_behind::<S>(after, e) && e.order.side == S::side() && e.order.product == product
}

// What stands at a place, where it is better than the best so far.
fn better<S: BookSide>(
    row: OrderRow,
    index: usize,
    product: u32,
    after: Option<Entry>,
    best: Option<Entry>,
) -> Option<Entry>
    ensures { option_map slot_of (option_or result best) ≡ offer (before S.BookSide.first) (wanted S.BookSide.code S.BookSide.first product (option_map slot_of after)) (slot index row) (option_map slot_of best) }
{
    let order = Order::try_from(row).ok()?;
    let e = Entry { index, order };
    let is_better = fits::<S>(e, product, after) && best.is_none_or(|other| ahead::<S>(e, other));
    is_better.then_some(e)
}

// The places of a table that count.
pub(crate) fn counted(table: &[OrderRow]) -> &[OrderRow]
    ensures rows { result.now ≡ counted table.now }
    ensures len { length result.now ≡ min most_places (length table.now) }
{
    let places = table.len().min(PLACES);
    &table[..places]
}

// The first order of a queue behind a cursor; with none, the first of the whole queue.
pub fn seek<S: BookSide>(table: &[OrderRow], product: u32, after: Option<Entry>) -> Option<Entry>
    ensures first { option_map slot_of result ≡ head (behind S.BookSide.code S.BookSide.first product (option_map slot_of after) table.now) }
    ensures within { IfSome result (λ e. e.index < length table.now) }
{
    let mut found: Option<Entry> = None;
    for (index, row) in counted(table).iter().enumerate() {
        // written only where it changes: the best so far is large to move at every place
        if let Some(e) = better::<S>(*row, index, product, after, found) {
            found = Some(e);
        }
    }
    found
}

// The first order of a queue.
pub fn best<S: BookSide>(table: &[OrderRow], product: u32) -> Option<Entry>
    ensures { option_map slot_of result ≡ head (queue S.BookSide.code S.BookSide.first product table.now) }
{
    seek::<S>(table, product, None)
}
