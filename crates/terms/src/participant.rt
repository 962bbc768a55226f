// A member of the exchange, by its number from 1 to 999.
ghost use Rattle.std.specs.Prelude.{◌≡◌, ◌≤◌};
ghost use Rattle.terms.specs.Ranges.{last_participant};

use crate::field::Field;

#[derive(Clone, Copy, PartialEq, Eq, PartialOrd, Ord, Debug)]
pub struct Participant {
    number: u32,
    ghost some: { 1 ≤ number },
    ghost within: { number ≤ last_participant },
}

impl Participant {
    pub const LAST: u32 = 999;

    pub fn number(self) -> u32
        ensures { result ≡ self.number }
    {
        self.number
    }
}

impl TryFrom<u32> for Participant {
    ghost use Rattle.terms.specs.Checked.{participant_if};

    type Error = Field;

    ghost try_from_gives = { λ number r. r ≡ participant_if number };

    fn try_from(number: u32) -> Result<Participant, Field> {
        if number < 1 || number > Participant::LAST {
            return Err(Field::Participant);
        }
        Ok(Participant { number })
    }
}
