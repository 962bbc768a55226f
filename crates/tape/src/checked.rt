// From plain numbers to a trade, and back.
ghost use Rattle.std.specs.Prelude.{◌≡◌, true};
ghost use Rattle.std.specs.Result.{result_ok};
ghost use Rattle.tape.specs.Rows.{fair};
ghost use Rattle.tape.specs.Trades.{row_of, Checks};

use crate::row::TradeRow;
use crate::trade::Trade;
use terms::field::Field;
use terms::mark::NoMark;
use terms::stamp::NeverGiven;

impl Trade {
    pub const LAST_PRODUCT: u32 = 31;

    // in ticks
    pub const WIDEST_NO_BUST: u32 = 100_000;
}

impl From<Trade> for TradeRow {
    ghost from_gives = { λ trade row. (row ≡ row_of trade) × (fair row ≡ true) };

    #[tactic(auto, unfolding(crate::specs::Rows::fair))]
    fn from(trade: Trade) -> TradeRow {
        TradeRow {
            product: trade.product,
            time: trade.time,
            price: trade.price.ticks(),
            quantity: trade.quantity.lots(),
            buy: trade.buy.number(),
            sell: trade.sell.number(),
            buyer: trade.buyer.number(),
            seller: trade.seller.number(),
            established: trade.established.ticks(),
            no_bust: trade.no_bust,
            mark: trade.mark.into(),
            day: trade.day,
        }
    }
}

// One of the numbers is out of its range.
#[derive(Clone, Copy, PartialEq, Eq, Debug)]
pub struct NoTrade;

impl From<Field> for NoTrade {
    fn from(_: Field) -> NoTrade {
        NoTrade
    }
}

impl From<NeverGiven> for NoTrade {
    fn from(_: NeverGiven) -> NoTrade {
        NoTrade
    }
}

impl From<NoMark> for NoTrade {
    fn from(_: NoMark) -> NoTrade {
        NoTrade
    }
}

impl TryFrom<TradeRow> for Trade {
    type Error = NoTrade;

    ghost try_from_gives = { λ row r. Checks row (result_ok r) };

    #[tactic(auto, unfolding(crate::specs::Rows::fair))]
    fn try_from(row: TradeRow) -> Result<Trade, NoTrade> {
        if row.product > Trade::LAST_PRODUCT || row.no_bust > Trade::WIDEST_NO_BUST {
            return Err(NoTrade);
        }
        Ok(Trade {
            product: row.product,
            time: row.time,
            price: row.price.try_into()?,
            quantity: row.quantity.try_into()?,
            buy: row.buy.try_into()?,
            sell: row.sell.try_into()?,
            buyer: row.buyer.try_into()?,
            seller: row.seller.try_into()?,
            established: row.established.try_into()?,
            no_bust: row.no_bust,
            mark: row.mark.try_into()?,
            day: row.day,
        })
    }
}
