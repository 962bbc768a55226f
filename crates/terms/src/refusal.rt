// Every way in which a call is turned down, each with its number and its one detail.
ghost use Rattle.std.specs.Prelude.{◌≡◌};
ghost use Rattle.terms.specs.Refusals.{refusal_number, refusal_detail};
ghost use Rattle.terms.specs.declared.refusal.Refusal.TheVariants.{Malformed as malformed, OutOfRange as out_of_range, Missing as missing};

use crate::field::Field;
use crate::malformed::Malformed;
use crate::mark::Mark;
use crate::missing::Missing;
use crate::phase::Phase;
use crate::price::Price;
use std::error::Error;
use std::fmt;

#[derive(Clone, Copy, PartialEq, Eq, Debug)]
pub enum Refusal {
    // a listing or a ladder breaks its rules
    Malformed(Malformed),
    // the time is below that of the last accepted call, which is told
    TimeFell(u32),
    // the call is not for this phase
    WrongPhase(Phase),
    // no such product is listed
    NotListed(u32),
    // the lowest field that is out of its range
    OutOfRange(Field),
    // an entry while the market or this product is halted
    Halted(u32),
    // no order of this number rests for the participant
    NotResting(u32),
    // the limit price is beyond this sweep price
    BeyondSweep(Price),
    // no place of the order table is free, of so many that count
    TableFull(u32),
    // so many trades are due, and the tape cannot take them
    TapeFull(u32),
    // no stamp or day is left to give
    Exhausted,
    // nothing is halted
    NothingHalted,
    // a best buy reaches a best sell in this product, the lowest such
    Crossed(u32),
    // the trade is not on the tape
    Missing(Missing),
    // the participant is no side of this trade
    NoSide(u32),
    // a request on a trade that does not read as standing
    Marked(Mark),
    // the request came so many seconds too late
    TooLate(u32),
    // the price is within the no-bust ticks of this established market price
    NoBust(Price),
    // a determination on a trade that is not being considered
    NotConsidered(Mark),
}

impl Refusal {
    pub fn number(self) -> u32
        ensures { result ≡ refusal_number self }
    {
        match self {
            Refusal::Malformed(_) => 4,
            Refusal::TimeFell(_) => 5,
            Refusal::WrongPhase(_) => 6,
            Refusal::NotListed(_) => 7,
            Refusal::OutOfRange(_) => 8,
            Refusal::Halted(_) => 9,
            Refusal::NotResting(_) => 10,
            Refusal::BeyondSweep(_) => 11,
            Refusal::TableFull(_) => 12,
            Refusal::TapeFull(_) => 13,
            Refusal::Exhausted => 14,
            Refusal::NothingHalted => 15,
            Refusal::Crossed(_) => 16,
            Refusal::Missing(_) => 17,
            Refusal::NoSide(_) => 17,
            Refusal::Marked(_) => 18,
            Refusal::TooLate(_) => 19,
            Refusal::NoBust(_) => 20,
            Refusal::NotConsidered(_) => 21,
        }
    }

    pub fn detail(self) -> u32
        ensures { result ≡ refusal_detail self }
    {
        match self {
            Refusal::Malformed(part) => part.into(),
            Refusal::TimeFell(last) => last,
            Refusal::WrongPhase(phase) => phase.into(),
            Refusal::NotListed(product) => product,
            Refusal::OutOfRange(lowest) => lowest.into(),
            Refusal::Halted(product) => product,
            Refusal::NotResting(order) => order,
            Refusal::BeyondSweep(sweep) => sweep.ticks(),
            Refusal::TableFull(places) => places,
            Refusal::TapeFull(trades) => trades,
            Refusal::Exhausted => 0,
            Refusal::NothingHalted => 0,
            Refusal::Crossed(product) => product,
            Refusal::Missing(trade) => trade.number,
            Refusal::NoSide(trade) => trade,
            Refusal::Marked(mark) => mark.into(),
            Refusal::TooLate(seconds) => seconds,
            Refusal::NoBust(established) => established.ticks(),
            Refusal::NotConsidered(mark) => mark.into(),
        }
    }
}

impl From<Field> for Refusal {
    ghost from_gives = { λ field r. r ≡ out_of_range field };

    fn from(field: Field) -> Refusal {
        Refusal::OutOfRange(field)
    }
}

impl From<Malformed> for Refusal {
    ghost from_gives = { λ fault r. r ≡ malformed fault };

    fn from(fault: Malformed) -> Refusal {
        Refusal::Malformed(fault)
    }
}

impl From<Missing> for Refusal {
    ghost from_gives = { λ fault r. r ≡ missing fault };

    fn from(fault: Missing) -> Refusal {
        Refusal::Missing(fault)
    }
}

// Its number, its detail, and what it means.
impl fmt::Display for Refusal {
    fn fmt<W: fmt::Write>(&self, f: &mut fmt::Formatter<W>) -> fmt::Result {
        let words = match self {
            Refusal::Malformed(_) => "the listing breaks its rules",
            Refusal::TimeFell(_) => "the time is before the last accepted call",
            Refusal::WrongPhase(_) => "not in this phase",
            Refusal::NotListed(_) => "no such product is listed",
            Refusal::OutOfRange(_) => "out of range",
            Refusal::Halted(_) => "halted",
            Refusal::NotResting(_) => "no such order rests for this participant",
            Refusal::BeyondSweep(_) => "the price is beyond the sweep price",
            Refusal::TableFull(_) => "no place of the order table is free",
            Refusal::TapeFull(_) => "the tape cannot take the trades due",
            Refusal::Exhausted => "no stamp or day is left",
            Refusal::NothingHalted => "nothing is halted",
            Refusal::Crossed(_) => "a best buy reaches a best sell",
            Refusal::Missing(_) => "no such trade is on the tape",
            Refusal::NoSide(_) => "the participant is no side of the trade",
            Refusal::Marked(_) => "the trade does not stand unquestioned",
            Refusal::TooLate(_) => "the request came too late",
            Refusal::NoBust(_) => "the price is within the no-bust ticks",
            Refusal::NotConsidered(_) => "the trade is not being considered",
        };
        write!(f, "{} {}: {words}", self.number(), self.detail())
    }
}

impl Error for Refusal {}
