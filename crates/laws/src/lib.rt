// Every history of calls keeps the laws of the market.
#![tactic(auto)]

ghost use Rattle.laws.specs.Histories.{CanCancel};
ghost use Rattle.laws.specs.Laws.{LawsHold};

// The whole theorem, over every list of calls, every tape's records and every pricing function; and it is not about nothing.
pub fn laws_hold() -> u8
    ensures laws { LawsHold }
    ensures possible { CanCancel }
{
    0
}
