// One call of any kind on a market, its order table, its tape and the cases kept beside them.
ghost use Rattle.std.specs.Prelude.{◌≡◌, ◌<◌, ◌≤◌, vec_len, vec_capacity};
ghost use Rattle.std.specs.List.{insert};
ghost use Rattle.market.specs.Markets.{world_of};
ghost use Rattle.rules.specs.Calls.{request as requesting, determine as determining};
ghost use Rattle.calls.specs.Applied.{Applied};
ghost use Rattle.calls.specs.Keeping.{Finds, kept_in};
ghost use Rattle.calls.specs.Made.{call_of};

use crate::call::{Answer, Call, Undone};
use amending::amendments::amend;
use cases::case::Case;
use cases::considering::{determine, request};
use entering::entries::enter;
use market::market::Market;
use orders::row::OrderRow;
use pricing::model::PricingModel;
use sessions::days::{close, open, roll};
use sessions::halts::resume;
use sessions::references::{adjust, frenetic};
use sessions::withdrawals::withdraw;
use tape::Tape;
use terms::determination::Determination;

// The place of the first case on a trade.
fn find_case(cases: &[Case], trade: u32) -> Option<usize>
    ensures { Finds trade cases.now result }
{
    cases.iter().position(|case| case.trade() == trade)
}

// A case goes back to its place, for which there is room.
fn put_back(cases: &mut Vec<Case>, i: usize, case: Case)
    requires within { i ≤ vec_len cases.old }
    requires room { vec_len cases.old < vec_capacity cases.old }
    ensures { cases.new.items ≡ insert cases.old.items i case }
{
    cases.insert(i, case).unwrap();
}

// A trade is questioned, and its case is kept; without room for one nothing is asked.
fn keep_request<M: PricingModel, T: Tape>(
    market: &mut Market<M>,
    table: &[OrderRow],
    tape: &mut T,
    cases: &mut Vec<Case>,
    time: u32,
    participant: u32,
    trade: u32,
) -> Result<Answer, Undone>
    ensures { Applied (world_of M.PricingModel.tells T.Tape.records T.Tape.space market.old table.now tape.old) time (requesting participant trade) (kept_in cases.old) result (world_of M.PricingModel.tells T.Tape.records T.Tape.space market.new table.now tape.new) (kept_in cases.new) }
{
    cases.reserve(1)?;
    let case = request(market, table, tape, time, participant, trade)?;
    cases.push_reserved(case);
    Ok(Answer::CaseOn(trade))
}

// The first case kept on a trade is determined; a refusal leaves it where it was.
fn determine_kept<M: PricingModel, T: Tape>(
    market: &mut Market<M>,
    table: &[OrderRow],
    tape: &mut T,
    cases: &mut Vec<Case>,
    time: u32,
    trade: u32,
    verdict: Determination,
) -> Result<Answer, Undone>
    ensures { Applied (world_of M.PricingModel.tells T.Tape.records T.Tape.space market.old table.now tape.old) time (determining trade verdict) (kept_in cases.old) result (world_of M.PricingModel.tells T.Tape.records T.Tape.space market.new table.now tape.new) (kept_in cases.new) }
{
    let Some(i) = find_case(cases, trade) else {
        return Err(Undone::NoCase(trade));
    };
    let case = cases.remove(i);
    match determine(market, table, tape, time, case, verdict) {
        Ok(()) => Ok(Answer::Done),
        Err((refusal, case)) => {
            put_back(cases, i, case);
            Err(Undone::Refused(refusal))
        }
    }
}

// The call by its rule; with it every history goes on, and every law holds.
pub fn apply<M: PricingModel, T: Tape>(
    market: &mut Market<M>,
    table: &mut [OrderRow],
    tape: &mut T,
    cases: &mut Vec<Case>,
    time: u32,
    call: Call<'_>,
) -> Result<Answer, Undone>
    ensures { Applied (world_of M.PricingModel.tells T.Tape.records T.Tape.space market.old table.old tape.old) time (call_of call.entry) (kept_in cases.old) result (world_of M.PricingModel.tells T.Tape.records T.Tape.space market.new table.new tape.new) (kept_in cases.new) }
{
    match call {
        Call::Roll(prices) => {
            roll(market, table, tape, time, prices)?;
            Ok(Answer::Done)
        }
        Call::Open => {
            open(market, table, tape, time)?;
            Ok(Answer::Done)
        }
        Call::Close => Ok(Answer::Removed(close(market, table, tape, time)?)),
        Call::Enter(o) => Ok(Answer::Received(enter(market, table, tape, time, o)?)),
        Call::Amend(m) => Ok(Answer::Received(amend(market, table, tape, time, m)?)),
        Call::Withdraw { participant, order } => {
            Ok(Answer::LeftWith(withdraw(market, table, tape, time, participant, order)?))
        }
        Call::Adjust { product, price } => {
            adjust(market, table, tape, time, product, price)?;
            Ok(Answer::Done)
        }
        Call::Frenetic { product, ticks } => {
            frenetic(market, table, tape, time, product, ticks)?;
            Ok(Answer::Done)
        }
        Call::Resume => {
            resume(market, table, tape, time)?;
            Ok(Answer::Done)
        }
        Call::Request { participant, trade } => {
            keep_request(market, table, tape, cases, time, participant, trade)
        }
        Call::Determine { trade, verdict } => {
            determine_kept(market, table, tape, cases, time, trade, verdict)
        }
    }
}
