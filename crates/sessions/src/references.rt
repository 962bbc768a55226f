// One product's reference price and daily ticks.
ghost use Rattle.rules.specs.Calls.{adjust as adjusting, frenetic as widening, done, told};
ghost use Rattle.market.specs.Markets.{world_of, Follows};

use market::market::Market;
use orders::row::OrderRow;
use pricing::model::PricingModel;
use rules::turns::hold_time;
use tape::Tape;
use terms::price::Price;
use terms::refusal::Refusal;

// One product's reference price from now on.
pub fn adjust<M: PricingModel, T: Tape>(
    market: &mut Market<M>,
    table: &[OrderRow],
    tape: &T,
    time: u32,
    product: u32,
    price: u32,
) -> Result<(), Refusal>
    ensures { Follows (world_of M.PricingModel.tells T.Tape.records T.Tape.space market.old table.now tape.now) time (adjusting product price) (told (λ _. done) result) (world_of M.PricingModel.tells T.Tape.records T.Tape.space market.new table.now tape.now) }
{
    hold_time(market.state, time)?;
    let _ = market.products.product(product)?;
    let reference = Price::try_from(price)?;
    market
        .products
        .adjust(product, reference, tape.count())
        .unwrap();
    market.state.time = time;
    Ok(())
}

// One product's daily ticks, wider than listed, until this is sent with 0.
pub fn frenetic<M: PricingModel, T: Tape>(
    market: &mut Market<M>,
    table: &[OrderRow],
    tape: &T,
    time: u32,
    product: u32,
    ticks: u32,
) -> Result<(), Refusal>
    ensures { Follows (world_of M.PricingModel.tells T.Tape.records T.Tape.space market.old table.now tape.now) time (widening product ticks) (told (λ _. done) result) (world_of M.PricingModel.tells T.Tape.records T.Tape.space market.new table.now tape.now) }
{
    hold_time(market.state, time)?;
    market.products.widen(product, ticks)?;
    market.state.time = time;
    Ok(())
}
