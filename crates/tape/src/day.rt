// The last trade of a product on a day, found from the end of the tape.
ghost use Rattle.tape.specs.Days.{TellsLast, IsLast};

use crate::Tape;
use crate::last::LastTrade;
use crate::reading::known;

#[tactic(auto, using(crate::proofs::Back::last_more, std::proofs::lemmas::Grind::common_steps))]
pub fn last_of_day<T: Tape>(tape: &T, product: u32, day: u32) -> Option<LastTrade>
    ensures value { TellsLast product day (T.Tape.records tape.now) result }
    ensures last { IsLast product day (T.Tape.records tape.now) result }
{
    for number in (1..=tape.count()).rev() {
        let trade = known(tape, number);
        if trade.product == product && trade.day == day {
            return Some(LastTrade {
                number,
                price: trade.price,
            });
        }
    }
    None
}
