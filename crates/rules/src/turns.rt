// The turns of the day: each call that goes to another phase, and the phase that it leaves.
ghost use Rattle.std.specs.Prelude.{◌≡◌};
ghost use Rattle.terms.specs.Checks.{answered, earliest, left_by};
ghost use Rattle.rules.specs.Turns.{time_fault, turn_fault, turned_state};

use crate::state::State;
use terms::phase::Phase;
use terms::refusal::Refusal;

#[derive(Clone, Copy, PartialEq, Eq, Debug)]
pub enum Turn {
    Roll,
    Open,
    Close,
}

// Time never falls.
pub fn hold_time(state: State, time: u32) -> Result<(), Refusal>
    ensures { result ≡ answered (time_fault state time) tt }
{
    if time < state.time {
        return Err(Refusal::TimeFell(state.time));
    }
    Ok(())
}

// The next phase, in place, by the phase and the call together.
pub fn advance(state: &mut State, turn: Turn, time: u32) -> Result<(), Refusal>
    ensures answer { result ≡ answered (turn_fault state.old turn time) tt }
    ensures after { state.new ≡ left_by (turn_fault state.old turn time) state.old (turned_state state.old time) }
{
    hold_time(*state, time)?;
    state.phase = match (state.phase, turn) {
        (Phase::Closed, Turn::Roll) => Phase::BeforeNight,
        (Phase::BeforeNight, Turn::Open) => Phase::NightSession,
        (Phase::NightSession, Turn::Close) => Phase::BeforeDay,
        (Phase::BeforeDay, Turn::Open) => Phase::DaySession,
        (Phase::DaySession, Turn::Close) => Phase::Closed,
        _ => return Err(Refusal::WrongPhase(state.phase)),
    };
    state.time = time;
    Ok(())
}
