// The numbers that a call brings, as the refusal of one out of range names them.
ghost use Rattle.std.specs.Prelude.{◌≡◌};
ghost use Rattle.terms.specs.Numbers.{field_number};

#[derive(Clone, Copy, PartialEq, Eq, Debug)]
pub enum Field {
    Price = 1,
    Quantity = 2,
    Participant = 3,
    Date = 4,
    FreneticTicks = 5,
    Settlements = 6,
}

impl From<Field> for u32 {
    ghost from_gives = { λ field n. n ≡ field_number field };

    fn from(field: Field) -> u32 {
        field as u32
    }
}
