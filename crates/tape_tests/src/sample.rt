// Trades to put on a tape.
use std::test::Fail;
use tape::row::TradeRow;
use tape::trade::Trade;

pub const EXAMPLE: TradeRow = TradeRow {
    product: 0,
    time: 100,
    price: 6431,
    quantity: 50,
    buy: 5,
    sell: 2,
    buyer: 7,
    seller: 9,
    established: 6431,
    no_bust: 20,
    mark: 0,
    day: 1,
};

pub fn trade(row: TradeRow) -> Result<Trade, Fail> {
    Ok(Trade::try_from(row)?)
}

pub fn trade_of(product: u32, time: u32, price: u32, quantity: u32) -> Result<Trade, Fail> {
    trade(TradeRow {
        product,
        time,
        price,
        quantity,
        ..EXAMPLE
    })
}
