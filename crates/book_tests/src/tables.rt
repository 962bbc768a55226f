// Tables of every size and content.
use orders::close::Close;
use orders::full::TableFull;
use orders::questions::{find, free_place, is_crossed, top};
use orders::resting::expire;
use orders::row::OrderRow;
use orders::search::best;
use orders::side::{Buys, Sells};
use std::test::Fail;
use terms::price::Price;

// A buy of product 0 until cancelled, entered on day 3.
fn buy(number: u32, place: u32, price: u32) -> OrderRow {
    OrderRow {
        number,
        place,
        product: 0,
        side: 0,
        price,
        rest: 5,
        participant: 1,
        duration: 4,
        date: 0,
        entered: 3,
    }
}

fn first(table: &[OrderRow]) -> Option<usize> {
    best::<Buys>(table, 0).map(|e| e.index)
}

#[test]
fn an_empty_table_and_one_place(rt: HostRuntime) {
    assert!(rt; first(&[]).is_none() && free_place(&[], 1) == Err(TableFull { places: 0 }));
    assert!(rt; first(&[OrderRow::FREE]).is_none() && free_place(&[OrderRow::FREE], 1) == Ok(0));
    let one = [buy(1, 1, 100)];
    assert!(rt; first(&one) == Some(0) && free_place(&one, 1) == Err(TableFull { places: 1 }));
}

#[test]
fn only_the_first_65536_places_count(rt: HostRuntime) -> Result<(), Fail> {
    let mut table = vec![in rt.alloc(); OrderRow::FREE; 65_537]?;
    assert!(rt; table.len() == 65_537);
    table[65_536] = buy(1, 1, 100);
    assert!(rt; first(&table).is_none());
    table[65_535] = buy(2, 2, 90);
    assert!(rt; first(&table) == Some(65_535));
    assert!(rt; find(&table, 1, 1).is_none() && find(&table, 1, 2).is_some());
    Ok(())
}

#[test]
fn priority_is_price_then_place_then_index(rt: HostRuntime) {
    let other = OrderRow {
        product: 1,
        ..buy(9, 1, 500)
    };
    let sell = OrderRow {
        side: 1,
        ..buy(8, 1, 500)
    };
    assert!(rt; first(&[buy(1, 3, 100), other, buy(2, 2, 100), sell, buy(3, 4, 101)]) == Some(4));
    assert!(rt; first(&[buy(1, 3, 100), other, buy(2, 2, 100), sell]) == Some(2));
    assert!(rt; first(&[other, sell, buy(1, 2, 100), buy(2, 2, 100)]) == Some(2));
}

#[test]
fn rubbish_is_free_and_a_number_means_the_first_row(rt: HostRuntime) {
    let rubbish = OrderRow {
        participant: 1_000,
        ..buy(1, 1, 100)
    };
    let unlisted = OrderRow {
        product: 7,
        ..buy(1, 1, 100)
    };
    let table = [rubbish, unlisted, buy(1, 5, 100), buy(1, 2, 100)];
    assert!(rt; free_place(&table, 1) == Ok(0));
    assert_eq!(rt; find(&table, 1, 1).map(|e| e.index), Some(2));
}

#[test]
fn a_top_and_a_crossed_book(rt: HostRuntime) {
    let sell = OrderRow {
        side: 1,
        ..buy(2, 2, 101)
    };
    let apart = [buy(1, 1, 100), sell];
    let (buy_at, sell_at) = top(&apart, 0);
    assert_eq!(rt;
        (buy_at.map(Price::ticks), sell_at.map(Price::ticks)),
        (Some(100), Some(101))
    );
    assert!(rt; !is_crossed(&apart, 0) && is_crossed(&[buy(1, 1, 101), sell], 0));
    assert!(rt; best::<Sells>(&apart, 1).is_none());
}

fn left(table: &mut [OrderRow], day_ends: bool, day: u32) -> u32 {
    expire(
        table,
        1,
        Close {
            day_ends,
            day,
            limit: 3,
        },
    )
}

#[test]
fn orders_leave_at_their_closes(rt: HostRuntime) {
    let session = OrderRow {
        duration: 1,
        ..buy(1, 1, 100)
    };
    let day = OrderRow {
        duration: 2,
        ..buy(2, 2, 100)
    };
    let until = OrderRow {
        duration: 3,
        date: 4,
        ..buy(3, 3, 100)
    };
    let mut table = [session, day, until, buy(4, 4, 100)];
    assert_eq!(rt; left(&mut table, false, 3), 1);
    assert_eq!(rt; left(&mut table, true, 3), 1);
    assert_eq!(rt; left(&mut table, true, 4), 1);
    assert_eq!(rt; left(&mut table, false, 5), 0);
    assert_eq!(rt; left(&mut table, true, 5), 1);
    assert_eq!(rt; left(&mut table, true, 6), 0);
    assert!(rt; free_place(&table, 1) == Ok(0));
}
