// The order of a number, if it rests for a participant.
ghost use Rattle.std.specs.Prelude.{◌≡◌};
ghost use Rattle.rules.specs.Owners.{OwnOrder};

use orders::order::Entry;
use orders::questions::find;
use orders::row::OrderRow;
use terms::refusal::Refusal;

pub fn own_order(
    table: &[OrderRow],
    products: u32,
    participant: u32,
    number: u32,
) -> Result<Entry, Refusal>
    ensures { OwnOrder products table.now participant number result }
{
    find(table, products, number)
        .filter(|e| e.order.participant.number() == participant)
        .ok_or(Refusal::NotResting(number))
}
