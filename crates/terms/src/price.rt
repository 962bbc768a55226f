// A price in whole ticks, 0 to 1,000,000.
ghost use Rattle.std.specs.Prelude.{◌≡◌, ◌+◌, ◌-◌, ◌≤◌};
ghost use Rattle.terms.specs.Ranges.{highest_price};

use crate::field::Field;
use std::fmt;

#[derive(Clone, Copy, PartialEq, Eq, PartialOrd, Ord, Debug)]
pub struct Price {
    ticks: u32,
    ghost within: { ticks ≤ highest_price },
}

impl Price {
    ghost use Rattle.terms.specs.Checked.{price_at};

    pub const HIGHEST: u32 = 1_000_000;

    pub const ZERO: Price = Price { ticks: 0 };

    pub fn ticks(self) -> u32
        ensures { result ≡ self.ticks }
    {
        self.ticks
    }

    // So many ticks higher, cut to the highest price.
    pub fn raised(self, ticks: u32) -> Price
        ensures { result ≡ price_at (self.ticks + ticks) }
    {
        Price {
            ticks: self.ticks.saturating_add(ticks).min(Price::HIGHEST),
        }
    }

    // So many ticks lower, cut to 0.
    pub fn lowered(self, ticks: u32) -> Price
        ensures { result ≡ price_at (self.ticks - ticks) }
    {
        Price {
            ticks: self.ticks.saturating_sub(ticks),
        }
    }
}

// Quantities and participants are made alike, and yet no type over two ends: what each is called, how it moves and by which field it is refused are its own.
impl TryFrom<u32> for Price {
    ghost use Rattle.terms.specs.Checked.{price_if};

    type Error = Field;

    ghost try_from_gives = { λ ticks r. r ≡ price_if ticks };

    fn try_from(ticks: u32) -> Result<Price, Field> {
        if ticks > Price::HIGHEST {
            return Err(Field::Price);
        }
        Ok(Price { ticks })
    }
}

impl fmt::Display for Price {
    fn fmt<W: fmt::Write>(&self, f: &mut fmt::Formatter<W>) -> fmt::Result {
        write!(f, "{}", self.ticks)
    }
}
