// What a line asks for, in plain numbers: ranges are the desk's to check.
ghost use Rattle.std.specs.Prelude.{◌≡◌};
ghost use Rattle.std.specs.Option.{ok_or};

use std::error::Error;
use std::fmt;
use terms::duration::Duration;
use terms::side::Side;

// The word that a command begins with.
#[derive(Clone, Copy, PartialEq, Eq, Debug)]
pub enum Verb {
    Product,
    Enter,
    Top,
    Range,
    Tape,
    Hex,
}

impl TryFrom<&[u8]> for Verb {
    ghost use Rattle.console.specs.Commands.{verb_of};
    ghost use Rattle.console.specs.declared.command.Fault.TheVariants.{Unknown as unknown};

    type Error = Fault;

    ghost try_from_gives = { λ word r. r ≡ ok_or (verb_of word.now) unknown };

    fn try_from(word: &[u8]) -> Result<Verb, Fault> {
        match word {
            b"product" => Ok(Verb::Product),
            b"enter" => Ok(Verb::Enter),
            b"top" => Ok(Verb::Top),
            b"range" => Ok(Verb::Range),
            b"tape" => Ok(Verb::Tape),
            b"hex" => Ok(Verb::Hex),
            _ => Err(Fault::Unknown),
        }
    }
}

// The word that a duration begins with.
#[derive(Clone, Copy, PartialEq, Eq, Debug)]
pub enum Span {
    Now,
    Session,
    Day,
    Until,
    UntilCancelled,
}

impl TryFrom<&[u8]> for Span {
    ghost use Rattle.console.specs.Commands.{span_of};
    ghost use Rattle.console.specs.declared.command.Fault.TheVariants.{Duration as no_duration};

    type Error = Fault;

    ghost try_from_gives = { λ word r. r ≡ ok_or (span_of word.now) no_duration };

    fn try_from(word: &[u8]) -> Result<Span, Fault> {
        match word {
            b"now" => Ok(Span::Now),
            b"session" => Ok(Span::Session),
            b"day" => Ok(Span::Day),
            b"until" => Ok(Span::Until),
            b"until-cancelled" => Ok(Span::UntilCancelled),
            _ => Err(Fault::Duration),
        }
    }
}

#[derive(Clone, Copy, PartialEq, Eq, Debug)]
pub struct Order {
    pub side: Side,
    pub quantity: u32,
    // none for a market order
    pub limit: Option<u32>,
    pub participant: u32,
    pub duration: Duration,
}

#[derive(Clone, Copy, PartialEq, Eq, Debug)]
pub enum Command {
    // the figures of the product: sweep ticks, daily ticks, reference price
    Product {
        sweep: u32,
        daily: u32,
        reference: u32,
    },
    // an arriving order
    Enter(Order),
    // the best buy and the best sell
    Top,
    // the range in which the product may trade
    Range,
    // the trades so far
    Tape,
    // the trades as bytes
    Hex,
}

// Why a line is no command.
#[derive(Clone, Copy, PartialEq, Eq, Debug)]
pub enum Fault {
    Unknown,
    Side,
    Number,
    Limit,
    Duration,
    Surplus,
}

impl fmt::Display for Fault {
    fn fmt<W: fmt::Write>(&self, f: &mut fmt::Formatter<W>) -> fmt::Result {
        let words = match self {
            Fault::Unknown => "no such command",
            Fault::Side => "buy or sell is expected",
            Fault::Number => "a number from 0 to 4294967295 is expected",
            Fault::Limit => "a price or market is expected",
            Fault::Duration => "a duration is expected",
            Fault::Surplus => "too many words",
        };
        f.write_str(words)
    }
}

impl Error for Fault {}
