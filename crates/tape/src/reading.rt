// Reading any tape.
ghost use Rattle.std.specs.Prelude.{◌≡◌, true};
ghost use Rattle.tape.specs.Tapes.{on_tape, record_at, latest, Found, TradeAt};

use crate::Tape;
use crate::trade::Trade;
use terms::refusal::Refusal;

pub fn trade_at<T: Tape>(tape: &T, n: u32) -> Result<Trade, Refusal>
    ensures { TradeAt (T.Tape.records tape.now) n result }
{
    tape.read(n).map_err(Into::into)
}

// The time of the last record; with none 0, the earliest time there is.
#[tactic(auto, using(crate::proofs::Times::latest_at, std::proofs::lemmas::Grind::common_steps))]
pub fn last_time<T: Tape>(tape: &T) -> u32
    ensures { result ≡ latest (T.Tape.records tape.now) }
{
    let count = tape.count();
    if count == 0 {
        return 0;
    }
    known(tape, count).time
}

// A record that is known to be there.
pub(crate) fn known<T: Tape>(tape: &T, n: u32) -> Trade
    requires { on_tape (T.Tape.records tape.now) n ≡ true }
    ensures { Found (T.Tape.records tape.now) n result }
{
    tape.read(n).unwrap()
}
