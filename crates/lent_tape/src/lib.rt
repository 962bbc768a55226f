// A tape over lent memory, of which the first places are in use.
#![tactic(auto)]

ghost use Rattle.std.specs.Prelude.{◌≤◌};
ghost use Rattle.tape.specs.Placed.{FairPlaces, RisingPlaces};
ghost use Rattle.tape.specs.Ranges.{most_records};

pub mod no_record;
pub mod places;

use crate::no_record::NoRecord;
use crate::places::Places;
use tape::fault::AddFault;
use tape::trade::Trade;
use tape::{RECORDS, Tape};
use terms::mark::Mark;

#[derive(Drop)]
pub struct LentTape<P: Places> {
    pub(crate) places: P,
    pub(crate) used: u32,
    ghost within: { used ≤ P.size places },
    ghost few: { used ≤ most_records },
    ghost fair: { FairPlaces (P.at places) used },
    ghost rising: { RisingPlaces (P.at places) used },
}

impl<P: Places> LentTape<P> {
    ghost use Rattle.std.specs.Prelude.{◌≡◌, min, []};
    ghost use Rattle.lent_tape.specs.Held.{held, free, IsPlace};
    ghost use Rattle.tape.specs.Tapes.{latest};

    // An empty tape over lent memory.
    pub fn new(places: P) -> LentTape<P>
        ensures empty { held result ≡ [] }
        ensures spaced { free result ≡ min (P.size places) most_records }
        ensures lent { result.places ≡ places }
    {
        LentTape { places, used: 0 }
    }

    // The time of the last record; with none 0, the earliest time there is.
    #[tactic(auto, using(tape::proofs::Memory::latest_placed))]
    fn last(&self) -> u32
        ensures { result ≡ latest (held self.now) }
    {
        if self.used == 0 {
            return 0;
        }
        self.places.get(self.used as usize - 1).unwrap().time
    }

    // The place of a record, by its number.
    #[tactic(auto, using(tape::proofs::Calls::off_placed, tape::proofs::Memory::length_placed))]
    fn place(&self, n: u32) -> Result<usize, NoRecord>
        ensures { IsPlace self.now n result }
    {
        if n < 1 || n > self.used {
            return Err(NoRecord {
                number: n,
                count: self.used,
            });
        }
        Ok(n as usize - 1)
    }
}

impl<P: Places> Tape for LentTape<P> {
    ghost use Rattle.lent_tape.specs.Held.{held, free, lacking, held_bounded, held_fair, held_rising};

    type Fault = NoRecord;

    ghost records = { held };

    ghost space = { free };

    ghost told = { lacking };

    ghost bounded = { held_bounded };

    ghost fair = { held_fair };

    ghost rising = { held_rising };

    #[tactic(auto, using(tape::proofs::Memory::length_placed))]
    fn count(&self) -> u32 {
        self.used
    }

    fn room(&self) -> u32 {
        self.places.size().min(RECORDS) as u32 - self.used
    }

    fn read(&self, n: u32) -> Result<Trade, NoRecord> {
        let place = self.place(n)?;
        let row = self.places.get(place).unwrap();
        Ok(Trade::try_from(row).unwrap())
    }

    fn add(&mut self, trade: Trade) -> Result<(), AddFault> {
        if self.room() == 0 {
            return Err(AddFault::Full);
        }
        let last = self.last();
        if trade.time < last {
            return Err(AddFault::TimeFell(last));
        }
        self.places.set(self.used as usize, trade.into());
        self.used += 1;
        Ok(())
    }

    fn mark(&mut self, n: u32, mark: Mark) -> Result<(), NoRecord> {
        let place = self.place(n)?;
        self.places.mark(place, mark);
        Ok(())
    }
}
