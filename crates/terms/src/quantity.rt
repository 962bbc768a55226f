// An order's quantity, 1 to 1,000,000 lots.
ghost use Rattle.std.specs.Prelude.{◌≡◌, ◌-◌, ◌≤◌, min};
ghost use Rattle.terms.specs.Ranges.{largest_quantity};

use crate::field::Field;

#[derive(Clone, Copy, PartialEq, Eq, PartialOrd, Ord, Debug)]
pub struct Quantity {
    lots: u32,
    ghost some: { 1 ≤ lots },
    ghost within: { lots ≤ largest_quantity },
}

impl Quantity {
    ghost use Rattle.terms.specs.Checked.{lots_left};

    pub const LARGEST: u32 = 1_000_000;

    pub fn lots(self) -> u32
        ensures { result ≡ self.lots }
    {
        self.lots
    }

    // The smaller of the two.
    pub fn least(self, other: Quantity) -> Quantity
        ensures { result.lots ≡ min self.lots other.lots }
    {
        self.min(other)
    }

    // What is left once the other is taken away; none where nothing is.
    pub fn less(self, other: Quantity) -> Option<Quantity>
        ensures { lots_left result ≡ self.lots - other.lots }
    {
        if self <= other {
            return None;
        }
        Some(Quantity {
            lots: self.lots - other.lots,
        })
    }
}

impl TryFrom<u32> for Quantity {
    ghost use Rattle.terms.specs.Checked.{quantity_if};

    type Error = Field;

    ghost try_from_gives = { λ lots r. r ≡ quantity_if lots };

    fn try_from(lots: u32) -> Result<Quantity, Field> {
        if lots < 1 || lots > Quantity::LARGEST {
            return Err(Field::Quantity);
        }
        Ok(Quantity { lots })
    }
}
