// The last trade of a product on a day: its number on the tape and its price.
use terms::price::Price;

#[derive(Clone, Copy, PartialEq, Eq, Debug)]
pub struct LastTrade {
    pub number: u32,
    pub price: Price,
}
