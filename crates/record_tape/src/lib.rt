// A tape over lent records.
#![tactic(auto)]

ghost use Rattle.std.specs.Prelude.{length, slice_index_or};
ghost use Rattle.tape.specs.Tapes.{blank};

use lent_tape::LentTape;
use lent_tape::places::Places;
use tape::row::TradeRow;
use terms::mark::Mark;

pub type RecordTape<'a> = LentTape<Records<'a>>;

#[derive(Drop)]
pub struct Records<'a>(pub &'a mut [TradeRow]);

impl Places for Records<'_> {
    ghost size = { λ records. length records.0.now };

    ghost at = { λ records place. slice_index_or records.0.now place blank };

    fn size(&self) -> usize {
        self.0.len()
    }

    fn get(&self, place: usize) -> Option<TradeRow> {
        self.0.get(place).copied()
    }

    fn set(&mut self, place: usize, row: TradeRow) {
        if place < self.size() {
            self.0[place] = row;
        }
    }

    fn mark(&mut self, place: usize, mark: Mark) {
        if place < self.size() {
            self.0[place].mark = mark.into();
        }
    }
}
