// The tape of trades, as what uses it knows it.
#![tactic(auto)]

ghost use Rattle.std.specs.Prelude.{◌≡◌, ℕ, ◌+◌, ◌≤◌, List, length};
ghost use Rattle.terms.specs.declared.missing.Missing.{Missing as Lacks};
ghost use Rattle.tape.specs.Ranges.{most_records};
ghost use Rattle.tape.specs.Tapes.{Fair, Rising, Tells, Reads, Adds, Marks};
ghost use Rattle.tape.specs.declared.row.TradeRow.{TradeRow as Row};

pub mod checked;
pub mod day;
pub mod fault;
pub mod last;
pub mod reading;
pub mod row;
pub mod trade;
pub mod window;

use crate::fault::AddFault;
use crate::trade::Trade;
use terms::mark::Mark;
use terms::refusal::Refusal;

// The records that a tape may ever hold.
pub const RECORDS: usize = 65_536;

pub trait Tape {
    // the tape's own word for a record that it lacks
    type Fault: Drop + Into<Refusal>;

    // the meaning: records, numbered from 1, and how many more there is room for
    ghost records: { Self → List Row };

    ghost space: { Self → ℕ };

    ghost told: { Self.Fault → Lacks };

    // the laws, which an impl gives as proofs
    ghost bounded: { (tape : Self) → length (records tape) + space tape ≤ most_records };

    ghost fair: { (tape : Self) → Fair (records tape) };

    ghost rising: { (tape : Self) → Rising (records tape) };

    fn count(&self) -> u32
        ensures { result ≡ length (records self.now) };

    // How many more records it takes.
    fn room(&self) -> u32
        ensures { result ≡ space self.now };

    fn read(&self, n: u32) -> Result<Trade, Self::Fault>
        ensures answer { Reads told (records self.now) n result }
        ensures tells { Tells Self.Fault.converts told };

    fn add(&mut self, trade: Trade) -> Result<(), AddFault>
        ensures { Adds records space self.old trade self.new result };

    fn mark(&mut self, n: u32, mark: Mark) -> Result<(), Self::Fault>
        ensures answer { Marks records space told self.old n mark self.new result }
        ensures tells { Tells Self.Fault.converts told };
}
