// The five phases of a trading day, in their order.
ghost use Rattle.std.specs.Prelude.{◌≡◌};
ghost use Rattle.terms.specs.Numbers.{phase_number};

#[derive(Clone, Copy, PartialEq, Eq, Default, Debug)]
pub enum Phase {
    #[default]
    Closed = 0,
    BeforeNight = 1,
    NightSession = 2,
    BeforeDay = 3,
    DaySession = 4,
}

impl From<Phase> for u32 {
    ghost from_gives = { λ phase n. n ≡ phase_number phase };

    fn from(phase: Phase) -> u32 {
        phase as u32
    }
}
