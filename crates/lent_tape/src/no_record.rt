// What a tape in memory says of a record that it lacks.
ghost use Rattle.std.specs.Prelude.{◌≡◌};
ghost use Rattle.terms.specs.declared.refusal.Refusal.TheVariants.{Missing as missing};

use terms::missing::Missing;
use terms::refusal::Refusal;

#[derive(Clone, Copy, PartialEq, Eq, Debug)]
pub struct NoRecord {
    pub number: u32,
    pub count: u32,
}

impl From<NoRecord> for Missing {
    ghost from_gives = { λ fault r. r ≡ record { number = fault.number; count = fault.count } };

    fn from(fault: NoRecord) -> Missing {
        Missing {
            number: fault.number,
            count: fault.count,
        }
    }
}

impl From<NoRecord> for Refusal {
    ghost from_gives = { λ fault r. r ≡ missing (record { number = fault.number; count = fault.count }) };

    fn from(fault: NoRecord) -> Refusal {
        Refusal::Missing(Missing::from(fault))
    }
}
