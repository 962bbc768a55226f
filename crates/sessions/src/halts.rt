// Trading resumes.
ghost use Rattle.rules.specs.Calls.{resume as resuming, done, told};
ghost use Rattle.market.specs.Markets.{world_of, Follows};

use market::market::Market;
use orders::row::OrderRow;
use pricing::model::PricingModel;
use rules::crossing::hold_uncrossed;
use rules::turns::hold_time;
use tape::Tape;
use terms::refusal::Refusal;

// Every halt is lifted, over a book that is not crossed.
pub fn resume<M: PricingModel, T: Tape>(
    market: &mut Market<M>,
    table: &[OrderRow],
    tape: &T,
    time: u32,
) -> Result<(), Refusal>
    ensures { Follows (world_of M.PricingModel.tells T.Tape.records T.Tape.space market.old table.now tape.now) time resuming (told (λ _. done) result) (world_of M.PricingModel.tells T.Tape.records T.Tape.space market.new table.now tape.now) }
{
    hold_time(market.state, time)?;
    if !(market.state.halted || market.products.is_any_halted()) {
        return Err(Refusal::NothingHalted);
    }
    hold_uncrossed(table, market.products.count())?;
    market.products.lift();
    market.state.halted = false;
    market.state.time = time;
    Ok(())
}
