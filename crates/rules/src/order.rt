// The checks of every call stand in the order of their numbers.
ghost use Rattle.rules.specs.Numbers.{ChecksRise};

// Over everything that a call may find, every time and every call.
pub fn checks_rise() -> u8
    ensures { ChecksRise }
{
    0
}
