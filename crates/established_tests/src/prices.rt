// The three steps, on a tape in memory.
use crate::sample::{FUTURE, adjust, order, products, trade};
use established::moment::Moment;
use orders::row::OrderRow;
use pricing::intrinsic::Intrinsic;
use record_tape::{RecordTape, Records};
use std::test::Fail;
use tape::Tape;
use tape::row::TradeRow;

fn told<T: Tape>(at: &Moment<'_, T>, product: u32) -> Result<u32, Fail> {
    Ok(at.established(&Intrinsic, product)?.ticks())
}

#[test]
fn the_average_and_its_window(rt: HostRuntime) -> Result<(), Fail> {
    let products = products(&[FUTURE])?;
    let mut rows = [TradeRow::default(); 2];
    let mut tape = RecordTape::new(Records(&mut rows));
    tape.add(trade(0, 100, 100, 10)?)?;
    tape.add(trade(0, 150, 101, 20)?)?;
    let at = Moment {
        products: &products,
        table: &[],
        tape: &tape,
        day: 1,
        time: 160,
    };
    let late = Moment { time: 161, ..at };
    let table = [order(0, 0, 500)];
    assert_eq!(rt; told(&at, 0)?, 100);
    assert_eq!(rt;
        told(
            &Moment {
                table: &table,
                ..at
            },
            0
        )?,
        100
    );
    assert_eq!(rt; told(&late, 0)?, 101);
    assert!(rt; late.established(&Intrinsic, 1).is_err());
    Ok(())
}

// Product 0 at a time, with its reference price adjusted while the tape held so many records, after a trade at 6431.
fn later(reference: u32, records: u32, day: u32, table: &[OrderRow]) -> Result<u32, Fail> {
    let mut products = products(&[FUTURE])?;
    adjust(&mut products, 0, reference, records)?;
    let mut rows = [TradeRow::default(); 1];
    let mut tape = RecordTape::new(Records(&mut rows));
    tape.add(trade(0, 100, 6431, 50)?)?;
    let at = Moment {
        products: &products,
        table,
        tape: &tape,
        day,
        time: 161,
    };
    told(&at, 0)
}

#[test]
fn later_the_same_day(rt: HostRuntime) -> Result<(), Fail> {
    let table = [order(0, 0, 6436), order(0, 1, 6505)];
    assert_eq!(rt; later(6400, 0, 1, &[])?, 6431);
    assert_eq!(rt; later(6400, 0, 1, &table)?, 6436);
    assert_eq!(rt; later(6450, 1, 1, &table)?, 6450);
    assert_eq!(rt; later(6510, 1, 1, &table)?, 6505);
    assert_eq!(rt; later(6231, 0, 2, &[])?, 6231);
    Ok(())
}

// Product 1, with the two reference prices, after a trade in product 0 at 6440.
fn month(spot: u32, own: u32, time: u32, table: &[OrderRow]) -> Result<u32, Fail> {
    let mut products = products(&[FUTURE; 2])?;
    adjust(&mut products, 0, spot, 0)?;
    adjust(&mut products, 1, own, 0)?;
    let mut rows = [TradeRow::default(); 1];
    let mut tape = RecordTape::new(Records(&mut rows));
    tape.add(trade(0, 100, 6440, 50)?)?;
    let at = Moment {
        products: &products,
        table,
        tape: &tape,
        day: 1,
        time,
    };
    told(&at, 1)
}

#[test]
fn another_month(rt: HostRuntime) -> Result<(), Fail> {
    assert_eq!(rt; month(6431, 6500, 160, &[])?, 6509);
    assert_eq!(rt; month(6431, 6500, 160, &[order(1, 0, 6512)])?, 6512);
    assert_eq!(rt; month(6431, 6500, 160, &[order(1, 1, 6502)])?, 6502);
    assert_eq!(rt; month(6431, 6500, 161, &[order(0, 0, 6450)])?, 6519);
    Ok(())
}

#[test]
fn a_month_is_cut(rt: HostRuntime) -> Result<(), Fail> {
    assert_eq!(rt; month(6431, 0, 160, &[])?, 9);
    assert_eq!(rt; month(6450, 0, 160, &[])?, 0);
    assert_eq!(rt; month(6430, 1_000_000, 160, &[])?, 1_000_000);
    Ok(())
}
