// Each test holds the code to figures worked out by hand.
use limits::range::Range;
use limits::sweep::{hold_to_sweep, is_beyond, sweep_price};
use pricing::intrinsic::Intrinsic;
use pricing::ladder::Ladder;
use pricing::model::PricingModel;
use pricing::rung::Rung;
use std::process::Abort;
use std::test::Fail;
use terms::field::Field;
use terms::participant::Participant;
use terms::price::Price;
use terms::quantity::Quantity;
use terms::refusal::Refusal;
use terms::right::Right;
use terms::side::Side;

fn price(ticks: u32) -> Result<Price, Field> {
    Price::try_from(ticks)
}

#[test]
fn checked_numbers_at_their_edges(rt: HostRuntime) -> Result<(), Fail> {
    assert_eq!(rt; price(0)?.ticks(), 0);
    assert_eq!(rt; price(1_000_000)?.ticks(), 1_000_000);
    assert_eq!(rt; Price::try_from(1_000_001), Err(Field::Price));
    assert_eq!(rt; Quantity::try_from(0), Err(Field::Quantity));
    assert!(rt; Quantity::try_from(1).is_ok() && Quantity::try_from(1_000_000).is_ok());
    assert_eq!(rt; Quantity::try_from(1_000_001), Err(Field::Quantity));
    assert_eq!(rt; Participant::try_from(0), Err(Field::Participant));
    assert!(rt; Participant::try_from(1).is_ok() && Participant::try_from(999).is_ok());
    assert_eq!(rt; Participant::try_from(1_000), Err(Field::Participant));
    Ok(())
}

fn held(side: Side, ticks: u32, best: Option<Price>) -> Result<(u32, u32), Fail> {
    Ok(hold_to_sweep(side, price(ticks)?, best, price(6431)?, 5).map_or_else(
        |refusal| (refusal.number(), refusal.detail()),
        |()| (0, 0),
    ))
}

#[test]
fn the_published_book_is_held_to_its_sweep_prices(rt: HostRuntime) -> Result<(), Fail> {
    let sell = Some(price(6431)?);
    let buy = Some(price(6365)?);
    assert_eq!(rt; held(Side::Buy, 6436, sell)?, (0, 0));
    assert_eq!(rt; held(Side::Buy, 6437, sell)?, (11, 6436));
    assert_eq!(rt; held(Side::Sell, 6360, buy)?, (0, 0));
    assert_eq!(rt; held(Side::Sell, 6359, buy)?, (11, 6360));
    assert_eq!(rt; held(Side::Buy, 6437, None)?, (11, 6436));
    Ok(())
}

#[test]
fn sweep_prices_are_cut(rt: HostRuntime) -> Result<(), Fail> {
    assert_eq!(rt;
        sweep_price(Side::Buy, price(999_998)?, 5).ticks(),
        1_000_000
    );
    assert_eq!(rt;
        sweep_price(Side::Buy, price(999_995)?, 5).ticks(),
        1_000_000
    );
    assert_eq!(rt; sweep_price(Side::Sell, price(3)?, 5).ticks(), 0);
    assert_eq!(rt; sweep_price(Side::Sell, price(5)?, u32::MAX).ticks(), 0);
    assert_eq!(rt;
        sweep_price(Side::Buy, price(5)?, u32::MAX).ticks(),
        1_000_000
    );
    assert!(rt; !is_beyond(Side::Sell, price(7)?, price(7)?));
    Ok(())
}

#[test]
fn ranges_are_cut_and_hold_their_ends(rt: HostRuntime) -> Result<(), Fail> {
    let low = Range::around(price(150)?, 200);
    assert_eq!(rt; low.low.ticks(), 0);
    assert_eq!(rt; low.high.ticks(), 350);
    let high = Range::around(price(999_900)?, 200);
    assert_eq!(rt; high.low.ticks(), 999_700);
    assert_eq!(rt; high.high.ticks(), 1_000_000);
    assert!(rt; low.holds(price(350)?) && !low.holds(price(351)?));
    assert!(rt; high.holds(price(999_700)?) && !high.holds(price(999_699)?));
    Ok(())
}

#[test]
fn intrinsic_is_what_the_option_is_in_the_money(rt: HostRuntime) -> Result<(), Fail> {
    let model = Intrinsic;
    assert_eq!(rt;
        model.price(Right::Call, price(100)?, price(130)?).ticks(),
        30
    );
    assert_eq!(rt;
        model.price(Right::Call, price(130)?, price(100)?).ticks(),
        0
    );
    assert_eq!(rt;
        model.price(Right::Put, price(130)?, price(100)?).ticks(),
        30
    );
    assert_eq!(rt;
        model
            .price(Right::Put, price(0)?, price(1_000_000)?)
            .ticks(),
        0
    );
    assert_eq!(rt;
        model
            .price(Right::Call, price(0)?, price(1_000_000)?)
            .ticks(),
        1_000_000
    );
    Ok(())
}

fn fault(rt: &impl Abort, rungs: &[Rung]) -> Result<u32, Fail> {
    let Err(malformed) = Ladder::new(rungs) else {
        return Err(Fail::new("a ladder was made"));
    };
    let refusal = Refusal::from(malformed);
    assert_eq!(rt; refusal.number(), 4);
    Ok(refusal.detail())
}

fn call(ladder: &Ladder, strike: u32, underlying: u32) -> Result<u32, Fail> {
    Ok(
        ladder
            .price(Right::Call, price(strike)?, price(underlying)?)
            .ticks(),
    )
}

#[test]
fn a_ladder_of_one_rung(rt: HostRuntime) -> Result<(), Fail> {
    let ladder = Ladder::new(&[Rung { level: 0, price: 7 }])?;
    assert_eq!(rt; call(&ladder, 101, 100)?, 0);
    assert_eq!(rt; call(&ladder, 100, 100)?, 7);
    assert_eq!(rt; call(&ladder, 0, 1_000_000)?, 7);
    assert_eq!(rt;
        ladder.price(Right::Put, price(100)?, price(101)?).ticks(),
        0
    );
    Ok(())
}

fn rungs() -> [Rung; 32] {
    let mut rungs = [Rung::default(); 32];
    for (k, rung) in rungs.iter_mut().enumerate() {
        *rung = Rung {
            level: k as i32 * 10,
            price: k as u32 + 100,
        };
    }
    rungs
}

#[test]
fn a_ladder_of_thirty_two_rungs(rt: HostRuntime) -> Result<(), Fail> {
    let ladder = Ladder::new(&rungs())?;
    assert_eq!(rt; call(&ladder, 1, 0)?, 0);
    assert_eq!(rt; call(&ladder, 0, 0)?, 100);
    assert_eq!(rt; call(&ladder, 0, 9)?, 100);
    assert_eq!(rt; call(&ladder, 0, 10)?, 101);
    assert_eq!(rt; call(&ladder, 0, 310)?, 131);
    assert_eq!(rt; call(&ladder, 0, 1_000_000)?, 131);
    Ok(())
}

#[test]
fn ladders_that_break_their_rules(rt: HostRuntime) -> Result<(), Fail> {
    assert_eq!(rt; fault(&rt, &[])?, 32);
    assert_eq!(rt; fault(&rt, &[Rung::default(); 33])?, 32);
    assert_eq!(rt;
        fault(
            &rt,
            &[Rung {
                level: -1_000_001,
                price: 0,
            }],
        )?,
        0
    );
    assert_eq!(rt;
        fault(
            &rt,
            &[Rung {
                level: -1_000_000,
                price: 1_000_001,
            }],
        )?,
        0
    );
    assert_eq!(rt;
        fault(
            &rt,
            &[Rung { level: 5, price: 0 }, Rung { level: 5, price: 0 }]
        )?,
        1
    );
    assert_eq!(rt;
        fault(
            &rt,
            &[
                Rung { level: 5, price: 1 },
                Rung { level: 6, price: 0 },
                Rung {
                    level: 1_000_001,
                    price: 0,
                },
            ],
        )?,
        2
    );
    Ok(())
}
