// A number that a market gave: each stamp is given once, and later ones are higher. It is an order's number and its place in time.
ghost use Rattle.std.specs.Prelude.{◌≡◌, ◌≤◌};

#[derive(Clone, Copy, PartialEq, Eq, PartialOrd, Ord, Debug)]
pub struct Stamp {
    number: u32,
    ghost given: { 1 ≤ number },
}

impl Stamp {
    ghost use Rattle.terms.specs.Stamps.{stamp_after};

    pub fn number(self) -> u32
        ensures { result ≡ self.number }
    {
        self.number
    }

    // The one after the last one given; none where that was the last of all. Before any is given the last one is 0.
    pub fn after(last: u32) -> Option<Stamp>
        ensures { result ≡ stamp_after last }
    {
        Some(Stamp {
            number: last.checked_add(1)?,
        })
    }
}

// No stamp is 0.
#[derive(Clone, Copy, PartialEq, Eq, Debug)]
pub struct NeverGiven;

impl TryFrom<u32> for Stamp {
    ghost use Rattle.terms.specs.Stamps.{stamp_if};
    ghost use Rattle.std.specs.Result.{result_ok};

    type Error = NeverGiven;

    ghost try_from_gives = { λ number r. result_ok r ≡ stamp_if number };

    fn try_from(number: u32) -> Result<Stamp, NeverGiven> {
        if number < 1 {
            return Err(NeverGiven);
        }
        Ok(Stamp { number })
    }
}
