// What the records of a product just before a time add up to.
ghost use Rattle.std.specs.Prelude.{◌≡◌};
ghost use Rattle.tape.specs.Windows.{window, turnover as worth_of, volume as lots_of};

use crate::Tape;
use crate::reading::known;

#[derive(Clone, Copy, PartialEq, Eq, Debug)]
pub struct Sums {
    // price times quantity, in ticks
    pub turnover: u64,
    // in lots
    pub volume: u64,
}

impl Sums {
    pub const WINDOW_SECONDS: u32 = 60;

    // Times never fall, so the walk goes back from the last record and stops at the first that is too old.
    #[tactic(auto, using(crate::proofs::Back::window_steps))]
    pub fn before<T: Tape>(tape: &T, product: u32, time: u32) -> Sums
        ensures turnover { result.turnover ≡ worth_of (window product time (T.Tape.records tape.now)) }
        ensures volume { result.volume ≡ lots_of (window product time (T.Tape.records tape.now)) }
    {
        let since = time.saturating_sub(Sums::WINDOW_SECONDS);
        let mut turnover = 0;
        let mut volume = 0;
        for number in (1..=tape.count()).rev() {
            let trade = known(tape, number);
            if trade.time < since {
                return Sums { turnover, volume };
            }
            if trade.product == product {
                let lots = u64::from(trade.quantity.lots());
                turnover += u64::from(trade.price.ticks()) * lots;
                volume += lots;
            }
        }
        Sums { turnover, volume }
    }
}
