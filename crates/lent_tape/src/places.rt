// Lent memory as places for records, counted from 0.
ghost use Rattle.std.specs.Prelude.{◌≡◌, ℕ};
ghost use Rattle.lent_tape.specs.Places.{record_if, Writes};
ghost use Rattle.tape.specs.Tapes.{marked};
ghost use Rattle.tape.specs.declared.row.TradeRow.{TradeRow as Row};

use tape::row::TradeRow;
use terms::mark::Mark;

pub trait Places: Drop {
    // the meaning: how many places there are, and what stands at each
    ghost size: { Self → ℕ };

    ghost at: { Self → ℕ → Row };

    fn size(&self) -> usize
        ensures { result ≡ size self.now };

    // The record at a place; none past the last place.
    fn get(&self, place: usize) -> Option<TradeRow>
        ensures { result ≡ record_if (size self.now) (at self.now) place };

    // Writes a record at a place; past the last place nothing is written.
    fn set(&mut self, place: usize, row: TradeRow)
        ensures { Writes size at self.old place row self.new };

    // Marks the record at a place, of which nothing else changes; past the last place nothing is written.
    fn mark(&mut self, place: usize, mark: Mark)
        ensures { Writes size at self.old place (marked mark (at self.old place)) self.new };
}
