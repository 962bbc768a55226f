// On the limit and one tick past it.
use crate::sample::price;
use established::verdict::verdict;
use std::test::Fail;
use terms::verdict::Verdict;

fn told(ticks: u32) -> Result<Verdict, Fail> {
    Ok(verdict(price(ticks)?, price(6431)?, 20))
}

#[test]
fn around_the_established_price(rt: HostRuntime) -> Result<(), Fail> {
    assert_eq!(rt; told(6451)?, Verdict::Within);
    assert_eq!(rt; told(6452)?, Verdict::Beyond);
    assert_eq!(rt; told(6411)?, Verdict::Within);
    assert_eq!(rt; told(6410)?, Verdict::Beyond);
    Ok(())
}
