// What an arriving order halted: nothing, one option, or the whole market.
ghost use Rattle.std.specs.Prelude.{◌≡◌};
ghost use Rattle.terms.specs.Numbers.{halt_number};

#[derive(Clone, Copy, PartialEq, Eq, Debug)]
pub enum Halt {
    Nothing = 0,
    OneOption = 1,
    WholeMarket = 2,
}

impl From<Halt> for u32 {
    ghost from_gives = { λ halt n. n ≡ halt_number halt };

    fn from(halt: Halt) -> u32 {
        halt as u32
    }
}
