// No product's best buy may reach its best sell where trading starts.
ghost use Rattle.std.specs.Prelude.{◌≡◌};
ghost use Rattle.terms.specs.Checks.{answered};
ghost use Rattle.rules.specs.Turns.{crossings};

use orders::questions::is_crossed;
use orders::row::OrderRow;
use terms::refusal::Refusal;

pub fn hold_uncrossed(table: &[OrderRow], products: u32) -> Result<(), Refusal>
    ensures { result ≡ answered (crossings table.now products) tt }
{
    for n in 0..products {
        if is_crossed(table, n) {
            return Err(Refusal::Crossed(n));
        }
    }
    Ok(())
}
