// What a phase allows.
ghost use Rattle.std.specs.Prelude.{◌≡◌};
ghost use Rattle.rules.specs.Worlds.{ends_day, in_session, is_closed};

use terms::phase::Phase;

// Whether the day ends with this phase.
pub fn ends_day(phase: Phase) -> bool
    ensures { result ≡ ends_day phase }
{
    phase == Phase::DaySession
}

pub fn in_session(phase: Phase) -> bool
    ensures { result ≡ in_session phase }
{
    matches!(phase, Phase::NightSession | Phase::DaySession)
}

pub fn is_closed(phase: Phase) -> bool
    ensures { result ≡ is_closed phase }
{
    phase == Phase::Closed
}
