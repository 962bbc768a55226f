// The figures of the published book: sells 100 at 6505 and 50 at 6431, buys 10 at 6365 and 30 at 6320.
use book::outcome::Receipt;
use console::command::Order;
use desk::desk::Desk;
use orders::row::OrderRow;
use record_tape::{RecordTape, Records};
use std::test::Fail;
use tape::Tape;
use tape::reading::trade_at;
use tape::row::TradeRow;
use terms::duration::Duration;
use terms::price::Price;
use terms::refusal::Refusal;
use terms::side::Side;

fn limit(side: Side, quantity: u32, price: u32) -> Order {
    Order {
        side,
        quantity,
        limit: Some(price),
        participant: 1,
        duration: Duration::UntilCancelled,
    }
}

fn market_buy(quantity: u32) -> Order {
    Order {
        side: Side::Buy,
        quantity,
        limit: None,
        participant: 7,
        duration: Duration::Session,
    }
}

fn now_buy(quantity: u32) -> Order {
    Order {
        limit: Some(6436),
        duration: Duration::Now,
        ..market_buy(quantity)
    }
}

fn listed(reference: u32) -> Result<Desk, Fail> {
    let mut desk = Desk::new();
    desk.list(5, 200, reference)?;
    Ok(desk)
}

fn publish(desk: &mut Desk, table: &mut [OrderRow], tape: &mut RecordTape<'_>) -> Result<(), Fail> {
    desk.enter(table, tape, limit(Side::Sell, 100, 6505))?;
    desk.enter(table, tape, limit(Side::Sell, 50, 6431))?;
    desk.enter(table, tape, limit(Side::Buy, 10, 6365))?;
    desk.enter(table, tape, limit(Side::Buy, 30, 6320))?;
    Ok(())
}

fn numbers(r: Receipt<bool>) -> (u32, u32, u32, bool) {
    (r.traded, r.rest, r.trades, r.halt)
}

// The one order against the published book, with another reference price once the book stands.
fn against_book(reference: u32, order: Order) -> Result<(u32, u32, u32, bool), Fail> {
    let mut table = [OrderRow::FREE; 6];
    let mut rows = [TradeRow::default(); 4];
    let mut tape = RecordTape::new(Records(&mut rows));
    let mut desk = listed(6431)?;
    publish(&mut desk, &mut table, &mut tape)?;
    desk.list(5, 200, reference)?;
    Ok(numbers(desk.enter(&mut table, &mut tape, order)?))
}

#[test]
fn a_market_buy_takes_what_it_reaches_and_rests(rt: HostRuntime) -> Result<(), Fail> {
    assert_eq!(rt; against_book(6431, market_buy(100))?, (50, 50, 1, false));
    Ok(())
}

#[test]
fn a_now_order_trades_whole_or_is_killed(rt: HostRuntime) -> Result<(), Fail> {
    assert_eq!(rt; against_book(6431, now_buy(50))?, (50, 0, 1, false));
    assert_eq!(rt; against_book(6431, now_buy(51))?, (0, 0, 0, false));
    Ok(())
}

#[test]
fn a_match_outside_the_range_halts(rt: HostRuntime) -> Result<(), Fail> {
    assert_eq!(rt; against_book(6231, market_buy(50))?, (50, 0, 1, false));
    assert_eq!(rt; against_book(6230, market_buy(50))?, (0, 50, 0, true));
    Ok(())
}

#[test]
fn with_no_sells_a_market_buy_rests_at_its_sweep_price(rt: HostRuntime) -> Result<(), Fail> {
    let mut table = [OrderRow::FREE; 2];
    let mut rows = [TradeRow::default(); 1];
    let mut tape = RecordTape::new(Records(&mut rows));
    let mut desk = listed(6431)?;
    assert_eq!(rt;
        numbers(desk.enter(&mut table, &mut tape, market_buy(100))?),
        (0, 100, 0, false)
    );
    let (buy, sell) = desk.top(&table)?;
    assert!(rt; sell.is_none());
    assert_eq!(rt; buy.map(Price::ticks), Some(6436));
    Ok(())
}

fn told(refusal: Refusal) -> (u32, u32) {
    (refusal.number(), refusal.detail())
}

#[test]
fn a_full_table_and_a_full_tape_are_told(rt: HostRuntime) -> Result<(), Fail> {
    let mut table = [OrderRow::FREE; 5];
    let mut rows = [TradeRow::default(); 1];
    let mut tape = RecordTape::new(Records(&mut rows));
    let mut desk = listed(6431)?;
    publish(&mut desk, &mut table, &mut tape)?;
    desk.enter(&mut table, &mut tape, now_buy(20))?;
    assert_eq!(rt;
        desk.enter(&mut table, &mut tape, now_buy(20)).map_err(told),
        Err((13, 1))
    );
    desk.enter(&mut table, &mut tape, limit(Side::Buy, 1, 6000))?;
    assert_eq!(rt;
        desk.enter(&mut table, &mut tape, now_buy(20)).map_err(told),
        Err((12, 5))
    );
    assert_eq!(rt; tape.count(), 1);
    let trade = trade_at(&tape, 1)?;
    assert_eq!(rt;
        (
            trade.price.ticks(),
            trade.quantity.lots(),
            trade.buy.number(),
            trade.sell.number(),
        ),
        (6431, 20, 5, 2)
    );
    Ok(())
}
