// Cases: a trade is questioned, and the exchange decides.
ghost use Rattle.std.specs.Prelude.{◌≡◌};
ghost use Rattle.rules.specs.Calls.{request as requesting, determine as determining, case_on, told};
ghost use Rattle.tape.specs.Trades.{row_of};
ghost use Rattle.terms.specs.Checks.{answered, earliest};
ghost use Rattle.cases.specs.Cases.{case_checks, determination_fault, told_back, HandsBack};
ghost use Rattle.market.specs.Markets.{world_of, Follows};

use crate::case::Case;
use established::verdict::verdict;
use market::market::Market;
use orders::row::OrderRow;
use pricing::model::PricingModel;
use rules::state::State;
use rules::turns::hold_time;
use tape::Tape;
use tape::reading::trade_at;
use tape::trade::Trade;
use terms::determination::Determination;
use terms::mark::Mark;
use terms::participant::Participant;
use terms::refusal::Refusal;
use terms::verdict::Verdict;

// How long after a trade a case on it may be requested.
pub const REQUEST_SECONDS: u32 = 300;

// Whether a case may be opened on a trade.
#[tactic(auto, using(terms::proofs::Checked::price_is))]
fn hold_case(trade: Trade, number: u32, participant: Participant, time: u32) -> Result<(), Refusal>
    ensures { result ≡ answered (earliest (case_checks (row_of trade) number participant.number time)) tt }
{
    if trade.buyer != participant && trade.seller != participant {
        return Err(Refusal::NoSide(number));
    }
    if trade.mark != Mark::Stands {
        return Err(Refusal::Marked(trade.mark));
    }
    let late = time
        .saturating_sub(trade.time)
        .saturating_sub(REQUEST_SECONDS);
    if late > 0 {
        return Err(Refusal::TooLate(late));
    }
    if verdict(trade.price, trade.established, trade.no_bust) == Verdict::Within {
        return Err(Refusal::NoBust(trade.established));
    }
    Ok(())
}

// Whether the case on a trade may be determined.
fn hold_determination<T: Tape>(
    state: State,
    tape: &T,
    time: u32,
    number: u32,
    verdict: Determination,
) -> Result<(), Refusal>
    ensures { result ≡ answered (determination_fault state (T.Tape.records tape.now) time number verdict) tt }
{
    hold_time(state, time)?;
    let trade = trade_at(tape, number)?;
    if trade.mark != Mark::Considered {
        return Err(Refusal::NotConsidered(trade.mark));
    }
    Ok(())
}

// A participant of a trade questions it: it is considered, and the case is handed out.
pub fn request<M: PricingModel, T: Tape>(
    market: &mut Market<M>,
    table: &[OrderRow],
    tape: &mut T,
    time: u32,
    participant: u32,
    number: u32,
) -> Result<Case, Refusal>
    ensures { Follows (world_of M.PricingModel.tells T.Tape.records T.Tape.space market.old table.now tape.old) time (requesting participant number) (told (λ case. case_on case.trade) result) (world_of M.PricingModel.tells T.Tape.records T.Tape.space market.new table.now tape.new) }
{
    hold_time(market.state, time)?;
    let participant = Participant::try_from(participant)?;
    hold_case(trade_at(tape, number)?, number, participant, time)?;
    tape.mark(number, Mark::Considered).unwrap();
    market.state.time = time;
    Ok(Case { trade: number })
}

// The exchange decides a case, which is used up; a refusal hands it back.
pub fn determine<M: PricingModel, T: Tape>(
    market: &mut Market<M>,
    table: &[OrderRow],
    tape: &mut T,
    time: u32,
    case: Case,
    verdict: Determination,
) -> Result<(), (Refusal, Case)>
    ensures rule { Follows (world_of M.PricingModel.tells T.Tape.records T.Tape.space market.old table.now tape.old) time (determining case.trade verdict) (told_back result) (world_of M.PricingModel.tells T.Tape.records T.Tape.space market.new table.now tape.new) }
    ensures back { HandsBack case result }
{
    // a closure for `map_err` would take the case
    if let Err(refusal) = hold_determination(market.state, tape, time, case.trade, verdict) {
        return Err((refusal, case));
    }
    let Case { trade } = case;
    tape.mark(trade, verdict.mark()).unwrap();
    market.state.time = time;
    Ok(())
}
