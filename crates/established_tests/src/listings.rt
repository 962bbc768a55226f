// Which listings are refused, and by what.
use crate::sample::{FUTURE, adjust, option_on, products};
use listing::entry::Listed;
use listing::products::Products;
use std::test::Fail;
use terms::right::Right;
use terms::side::Side;

// The number of what is wrong with a listing; none where it is taken.
fn fault(listing: &[Listed], day_limit: u32) -> Option<u32> {
    Products::new(listing, day_limit).err().map(u32::from)
}

#[test]
fn counts_and_limits(rt: HostRuntime) -> Result<(), Fail> {
    assert_eq!(rt; fault(&[], 0), Some(32));
    assert_eq!(rt; fault(&[FUTURE; 33], 0), Some(32));
    assert_eq!(rt; fault(&[FUTURE; 32], 0), Some(33));
    assert_eq!(rt; fault(&[FUTURE], 366), Some(33));
    assert!(rt; Products::new(&[FUTURE; 32], 365).is_ok());
    assert!(rt; Products::new(&[FUTURE], 1).is_ok());
    Ok(())
}

#[test]
fn the_lowest_product_at_fault(rt: HostRuntime) -> Result<(), Fail> {
    let call = option_on(Right::Call, 1_000_000, 0);
    assert_eq!(rt; fault(&[call], 30), Some(0));
    assert!(rt; Products::new(&[FUTURE, call], 30).is_ok());
    assert_eq!(rt;
        fault(&[FUTURE, option_on(Right::Call, 1_000_001, 0)], 30),
        Some(1)
    );
    assert_eq!(rt; fault(&[FUTURE, option_on(Right::Put, 5, 1)], 30), Some(1));
    assert_eq!(rt;
        fault(&[FUTURE, call, option_on(Right::Put, 5, 1)], 30),
        Some(2)
    );
    assert_eq!(rt;
        fault(&[FUTURE, option_on(Right::Put, 5, 2), FUTURE], 30),
        Some(1)
    );
    let wide = Listed {
        sweep: 1_001,
        ..FUTURE
    };
    let narrow = Listed { daily: 0, ..FUTURE };
    assert_eq!(rt; fault(&[FUTURE, wide, narrow], 30), Some(1));
    assert_eq!(rt; fault(&[narrow, wide], 30), Some(0));
    Ok(())
}

#[test]
fn ranges_and_sweep_prices(rt: HostRuntime) -> Result<(), Fail> {
    let mut products = products(&[FUTURE])?;
    adjust(&mut products, 0, 6431, 0)?;
    assert!(rt; products.product(1).is_err());
    assert!(rt; products.range(1).is_err());
    let listed = products.range(0)?;
    assert_eq!(rt; (listed.low.ticks(), listed.high.ticks()), (6231, 6631));
    assert!(rt; products.widen(0, 200).is_err());
    assert!(rt; products.widen(0, 300).is_ok());
    let wide = products.range(0)?;
    assert_eq!(rt; (wide.low.ticks(), wide.high.ticks()), (6131, 6731));
    let sweep = products.sweep_price(Side::Buy, 0, None)?;
    assert_eq!(rt; sweep.ticks(), 6436);
    Ok(())
}
