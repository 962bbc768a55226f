// A trade's price against the no-bust ticks around the established market price.
ghost use Rattle.std.specs.Prelude.{◌≡◌};
ghost use Rattle.established.specs.Verdicts.{verdict_on};

use terms::price::Price;
use terms::verdict::Verdict;

pub fn verdict(price: Price, established: Price, no_bust: u32) -> Verdict
    ensures { result ≡ verdict_on price.ticks established.ticks no_bust }
{
    let distance = price.ticks().abs_diff(established.ticks());
    if distance <= no_bust {
        Verdict::Within
    } else {
        Verdict::Beyond
    }
}
