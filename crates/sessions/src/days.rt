// The turns of a day: a new day rolls in, sessions open and close.
ghost use Rattle.rules.specs.Calls.{roll as rolling, open_session, close_session, done, removed, told};
ghost use Rattle.market.specs.Markets.{world_of, Follows};

use market::market::Market;
use orders::close::Close;
use orders::resting::expire;
use orders::row::OrderRow;
use pricing::model::PricingModel;
use rules::crossing::hold_uncrossed;
use rules::phases::ends_day;
use rules::turns::{Turn, advance};
use tape::Tape;
use terms::refusal::Refusal;

// A new day begins: each product's settlement price becomes its reference price.
pub fn roll<M: PricingModel, T: Tape>(
    market: &mut Market<M>,
    table: &[OrderRow],
    tape: &T,
    time: u32,
    prices: &[u32],
) -> Result<(), Refusal>
    ensures { Follows (world_of M.PricingModel.tells T.Tape.records T.Tape.space market.old table.now tape.now) time (rolling prices.now) (told (λ _. done) result) (world_of M.PricingModel.tells T.Tape.records T.Tape.space market.new table.now tape.now) }
{
    let mut state = market.state;
    advance(&mut state, Turn::Roll, time)?;
    let mut products = market.products;
    products.settle(prices)?;
    state.day = state.day.checked_add(1).ok_or(Refusal::Exhausted)?;
    market.state = state;
    market.products = products;
    Ok(())
}

// A session begins; nothing may be crossed.
pub fn open<M: PricingModel, T: Tape>(
    market: &mut Market<M>,
    table: &[OrderRow],
    tape: &T,
    time: u32,
) -> Result<(), Refusal>
    ensures { Follows (world_of M.PricingModel.tells T.Tape.records T.Tape.space market.old table.now tape.now) time open_session (told (λ _. done) result) (world_of M.PricingModel.tells T.Tape.records T.Tape.space market.new table.now tape.now) }
{
    let mut state = market.state;
    advance(&mut state, Turn::Open, time)?;
    hold_uncrossed(table, market.products.count())?;
    market.state = state;
    Ok(())
}

// The session ends, and orders whose duration ends with it leave; how many did.
pub fn close<M: PricingModel, T: Tape>(
    market: &mut Market<M>,
    table: &mut [OrderRow],
    tape: &T,
    time: u32,
) -> Result<u32, Refusal>
    ensures { Follows (world_of M.PricingModel.tells T.Tape.records T.Tape.space market.old table.old tape.now) time close_session (told removed result) (world_of M.PricingModel.tells T.Tape.records T.Tape.space market.new table.new tape.now) }
{
    let close = Close {
        day_ends: ends_day(market.state.phase),
        day: market.state.day,
        limit: market.products.day_limit(),
    };
    advance(&mut market.state, Turn::Close, time)?;
    Ok(expire(table, market.products.count(), close))
}
