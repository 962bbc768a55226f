// Listings, books and tapes to ask of.
use listing::entry::Listed;
use listing::kind::Kind;
use listing::products::Products;
use orders::row::OrderRow;
use std::test::Fail;
use tape::row::TradeRow;
use tape::trade::Trade;
use terms::price::Price;
use terms::right::Right;

pub const FUTURE: Listed = Listed {
    kind: Kind::Future,
    sweep: 5,
    daily: 200,
    no_bust: 20,
};

pub fn option_on(right: Right, strike: u32, underlying: u32) -> Listed {
    Listed {
        kind: Kind::Option {
            right,
            strike,
            underlying,
        },
        ..FUTURE
    }
}

pub fn price(ticks: u32) -> Result<Price, Fail> {
    Ok(Price::try_from(ticks)?)
}

pub fn products(listing: &[Listed]) -> Result<Products, Fail> {
    Ok(Products::new(listing, 30)?)
}

pub fn adjust(products: &mut Products, n: u32, ticks: u32, records: u32) -> Result<(), Fail> {
    products.adjust(n, price(ticks)?, records)?;
    Ok(())
}

// An order of one lot; the side is 0 for a buy and 1 for a sell.
pub fn order(product: u32, side: u32, price: u32) -> OrderRow {
    OrderRow {
        number: 1,
        place: 1,
        product,
        side,
        price,
        rest: 1,
        participant: 1,
        duration: 1,
        ..OrderRow::FREE
    }
}

// A trade of day 1, at the established price.
pub fn trade(product: u32, time: u32, price: u32, quantity: u32) -> Result<Trade, Fail> {
    Ok(Trade::try_from(TradeRow {
        product,
        time,
        price,
        quantity,
        buy: 5,
        sell: 2,
        buyer: 7,
        seller: 9,
        established: price,
        no_bust: 20,
        mark: 0,
        day: 1,
    })?)
}
