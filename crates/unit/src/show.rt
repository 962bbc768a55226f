// Prices that may be missing, trades and bytes as text.
use std::fmt;
use tape::row::TradeRow;
use terms::price::Price;

// A price, or a dash where there is none.
#[derive(Clone, Copy)]
pub struct Maybe(pub Option<Price>);

impl fmt::Display for Maybe {
    fn fmt<W: fmt::Write>(&self, f: &mut fmt::Formatter<W>) -> fmt::Result {
        match self.0 {
            Some(price) => write!(f, "{price}"),
            None => write!(f, "-"),
        }
    }
}

// A trade: its price and quantity, its two orders and their participants.
#[derive(Clone, Copy)]
pub struct Deal(pub TradeRow);

impl fmt::Display for Deal {
    fn fmt<W: fmt::Write>(&self, f: &mut fmt::Formatter<W>) -> fmt::Result {
        let TradeRow {
            price,
            quantity,
            buy,
            sell,
            buyer,
            seller,
            established,
            ..
        } = self.0;
        write!(f, "price {price} quantity {quantity} buy {buy} sell {sell}")?;
        write!(
            f,
            " buyer {buyer} seller {seller} established {established}"
        )
    }
}

// Bytes as pairs of hexadecimal digits.
#[derive(Clone, Copy)]
pub struct Hex<'a>(pub &'a [u8]);

impl fmt::Display for Hex<'_> {
    fn fmt<W: fmt::Write>(&self, f: &mut fmt::Formatter<W>) -> fmt::Result {
        for byte in self.0 {
            write!(f, "{byte:02x}")?;
        }
        Ok(())
    }
}
