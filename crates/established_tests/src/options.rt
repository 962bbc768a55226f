// Options by both pricing models.
use crate::sample::{FUTURE, adjust, option_on, order, products};
use established::moment::Moment;
use orders::row::OrderRow;
use pricing::intrinsic::Intrinsic;
use pricing::ladder::Ladder;
use pricing::model::PricingModel;
use pricing::rung::Rung;
use record_tape::{RecordTape, Records};
use std::test::Fail;
use tape::row::TradeRow;
use terms::right::Right;

// An option at 6400, of this right, on a future whose reference is 6400.
fn told<M: PricingModel>(model: &M, right: Right, table: &[OrderRow]) -> Result<u32, Fail> {
    let mut products = products(&[FUTURE, option_on(right, 6400, 0)])?;
    adjust(&mut products, 0, 6400, 0)?;
    let mut rows = [TradeRow::default(); 1];
    let at = Moment {
        products: &products,
        table,
        tape: &RecordTape::new(Records(&mut rows)),
        day: 1,
        time: 0,
    };
    Ok(at.established(model, 1)?.ticks())
}

fn rung(level: i32, price: u32) -> Rung {
    Rung { level, price }
}

#[test]
fn intrinsic(rt: HostRuntime) -> Result<(), Fail> {
    let table = [order(0, 0, 6431)];
    assert_eq!(rt; told(&Intrinsic, Right::Call, &table)?, 31);
    assert_eq!(rt; told(&Intrinsic, Right::Put, &table)?, 0);
    Ok(())
}

#[test]
fn on_a_ladder(rt: HostRuntime) -> Result<(), Fail> {
    let table = [order(0, 0, 6431)];
    let three = Ladder::new(&[rung(-100, 5), rung(0, 20), rung(50, 60)])?;
    assert_eq!(rt; told(&three, Right::Call, &table)?, 20);
    assert_eq!(rt; told(&three, Right::Put, &table)?, 5);
    assert_eq!(rt;
        told(&three, Right::Call, &[order(0, 0, 6431), order(1, 1, 18)])?,
        18
    );
    let one = Ladder::new(&[rung(40, 60)])?;
    assert_eq!(rt; told(&one, Right::Call, &table)?, 0);
    assert_eq!(rt; told(&one, Right::Put, &table)?, 0);
    Ok(())
}
