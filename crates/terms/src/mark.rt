// What a trade on the tape reads: every new one stands, and only a case changes it.
ghost use Rattle.std.specs.Prelude.{◌≡◌, Some, Err};
ghost use Rattle.std.specs.Result.{result_ok};
ghost use Rattle.terms.specs.Numbers.{mark_number, mark_of};

#[derive(Clone, Copy, PartialEq, Eq, Debug)]
pub enum Mark {
    Stands = 0,
    Considered = 1,
    Upheld = 2,
    Cancelled = 3,
}

impl From<Mark> for u32 {
    ghost from_gives = { λ mark n. (n ≡ mark_number mark) × (mark_of n ≡ Some mark) };

    fn from(mark: Mark) -> u32 {
        mark as u32
    }
}

// A number that no mark has.
#[derive(Clone, Copy, PartialEq, Eq, Debug)]
pub struct NoMark(pub u32);

impl TryFrom<u32> for Mark {
    type Error = NoMark;

    ghost try_from_gives = { λ number r. result_ok r ≡ mark_of number };

    fn try_from(number: u32) -> Result<Mark, NoMark> {
        match number {
            0 => Ok(Mark::Stands),
            1 => Ok(Mark::Considered),
            2 => Ok(Mark::Upheld),
            3 => Ok(Mark::Cancelled),
            _ => Err(NoMark(number)),
        }
    }
}
