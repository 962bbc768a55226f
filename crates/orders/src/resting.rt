// Writing to the table: an order comes to rest, changes, or leaves.
ghost use Rattle.std.specs.Prelude.{◌≡◌, slice_set};
ghost use Rattle.orders.specs.Closes.{leaves, expired, removed};
ghost use Rattle.orders.specs.Orders.{row_of};
ghost use Rattle.orders.specs.Resting.{ComesToRest};
ghost use Rattle.orders.specs.Rows.{free};

use crate::PLACES;
use crate::close::Close;
use crate::full::TableFull;
use crate::order::Order;
use crate::questions::{free_place, standing};
use crate::row::OrderRow;

#[tactic(auto, using(std::proofs::lemmas::List::set_past))]
fn write(table: &mut [OrderRow], index: usize, row: OrderRow)
    ensures { table.new ≡ slice_set table.old index row }
{
    if index < table.len() {
        table[index] = row;
    }
}

// The order stands at this index from now on; an index past the end changes nothing.
pub fn put(table: &mut [OrderRow], index: usize, order: Order)
    ensures { table.new ≡ slice_set table.old index (row_of order) }
{
    write(table, index, order.into());
}

// The place is free from now on.
pub fn clear(table: &mut [OrderRow], index: usize)
    ensures { table.new ≡ slice_set table.old index free }
{
    write(table, index, OrderRow::FREE);
}

// An order comes to rest in some free place that counts.
pub fn rest(table: &mut [OrderRow], products: u32, order: Order) -> Result<usize, TableFull>
    ensures { ComesToRest products order table.old result table.new }
{
    let index = free_place(table, products)?;
    put(table, index, order);
    Ok(index)
}

fn has_left(row: OrderRow, products: u32, close: Close) -> bool
    ensures { result ≡ leaves products close row }
{
    standing(row, products).is_some_and(|order| close.ends(order))
}

// Every order whose duration ends at this close leaves; how many did.
pub fn expire(table: &mut [OrderRow], products: u32, close: Close) -> u32
    ensures table { table.new ≡ expired products close table.old }
    ensures count { result ≡ removed products close table.old }
{
    let places = table.len().min(PLACES);
    let mut count = 0;
    for row in table[..places].iter_mut() {
        if has_left(*row, products, close) {
            *row = OrderRow::FREE;
            count += 1;
        }
    }
    count
}
