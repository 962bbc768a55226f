// An order is withdrawn.
ghost use Rattle.rules.specs.Calls.{withdraw as withdrawing, left_with, told};
ghost use Rattle.market.specs.Markets.{world_of, Follows};

use market::market::Market;
use orders::resting::clear;
use orders::row::OrderRow;
use pricing::model::PricingModel;
use rules::owners::own_order;
use rules::phases::is_closed;
use rules::turns::hold_time;
use tape::Tape;
use terms::participant::Participant;
use terms::refusal::Refusal;

// The order leaves; the quantity that it leaves with.
#[tactic(auto, unfolding(rules::specs::Amending::slot_in))]
pub fn withdraw<M: PricingModel, T: Tape>(
    market: &mut Market<M>,
    table: &mut [OrderRow],
    tape: &T,
    time: u32,
    participant: u32,
    number: u32,
) -> Result<u32, Refusal>
    ensures { Follows (world_of M.PricingModel.tells T.Tape.records T.Tape.space market.old table.old tape.now) time (withdrawing participant number) (told left_with result) (world_of M.PricingModel.tells T.Tape.records T.Tape.space market.new table.new tape.now) }
{
    hold_time(market.state, time)?;
    if is_closed(market.state.phase) {
        return Err(Refusal::WrongPhase(market.state.phase));
    }
    let _ = Participant::try_from(participant)?;
    let entry = own_order(table, market.products.count(), participant, number)?;
    clear(table, entry.index);
    market.state.time = time;
    Ok(entry.order.rest.lots())
}
