// What is asked of the table: best prices, an order by its number, a free place.
ghost use Rattle.std.specs.Prelude.{◌≡◌, ◌<◌, length, IfSome};
ghost use Rattle.std.specs.Option.{option_map};
ghost use Rattle.orders.specs.Queue.{slot_of};
ghost use Rattle.orders.specs.Questions.{best_price, best_buy, best_sell, best_facing, crosses, order_numbered, Stands, FreePlace};

use crate::full::TableFull;
use crate::order::{Entry, Order};
use crate::row::OrderRow;
use crate::search::{best, counted};
use crate::side::{BookSide, Buys, Sells};
use terms::price::Price;
use terms::side::Side;

#[tactic(auto, using(terms::proofs::Checked::price_is))]
pub fn best_price<S: BookSide>(table: &[OrderRow], product: u32) -> Option<Price>
    ensures { result ≡ best_price S.BookSide.code S.BookSide.first product table.now }
{
    best::<S>(table, product).map(|e| e.order.price)
}

// The best buy and the best sell, either perhaps absent.
pub fn top(table: &[OrderRow], product: u32) -> (Option<Price>, Option<Price>)
    ensures { result ≡ (best_buy product table.now, best_sell product table.now) }
{
    (
        best_price::<Buys>(table, product),
        best_price::<Sells>(table, product),
    )
}

// The best price that an order of this side would trade with.
pub fn best_facing(table: &[OrderRow], side: Side, product: u32) -> Option<Price>
    ensures { result ≡ best_facing side product table.now }
{
    match side {
        Side::Buy => best_price::<Sells>(table, product),
        Side::Sell => best_price::<Buys>(table, product),
    }
}

// Whether the best buy reaches the best sell.
pub fn is_crossed(table: &[OrderRow], product: u32) -> bool
    ensures { result ≡ crosses (best_buy product table.now) (best_sell product table.now) }
{
    let (buy, sell) = top(table, product);
    buy.zip(sell).is_some_and(|(buy, sell)| sell <= buy)
}

// The order that stands at a place, in one of the products listed.
pub(crate) fn standing(row: OrderRow, products: u32) -> Option<Order>
    ensures { Stands products row result }
{
    Order::try_from(row)
        .ok()
        .filter(|order| order.product < products)
}

// The order of a number: the first place that has it.
pub fn find(table: &[OrderRow], products: u32, number: u32) -> Option<Entry>
    ensures value { option_map slot_of result ≡ order_numbered products number table.now }
    ensures within { IfSome result (λ e. e.index < length table.now) }
{
    for (index, row) in counted(table).iter().enumerate() {
        let order = standing(*row, products).filter(|order| order.number.number() == number);
        if let Some(order) = order {
            return Some(Entry { index, order });
        }
    }
    None
}

// A free place that counts.
pub fn free_place(table: &[OrderRow], products: u32) -> Result<usize, TableFull>
    ensures { FreePlace products table.now result }
{
    let places = counted(table);
    places
        .iter()
        .position(|row| standing(*row, products).is_none())
        .ok_or(TableFull {
            places: places.len() as u32,
        })
}
