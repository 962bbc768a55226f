// The ladder model: levels of moneyness that rise strictly, each with a price.
ghost use Rattle.std.specs.Prelude.{◌≡◌, ℕ, ◌<◌, ◌≤◌, false, length, filter};
ghost use Rattle.pricing.specs.Rungs.{at_fault};
ghost use Rattle.pricing.specs.Money.{moneyness};

use crate::model::PricingModel;
use crate::money::moneyness;
use crate::rung::Rung;
use terms::malformed::Malformed;
use terms::price::Price;
use terms::right::Right;

#[derive(Clone, Copy, PartialEq, Eq, Debug)]
pub struct Ladder {
    // what is above the count is not part of the ladder: a buffer, since no heap is at hand and an ArrayVec is not Copy
    rungs: [Rung; Ladder::MOST],
    count: usize,
    ghost some: { 1 ≤ count },
    ghost few: { count ≤ 32 },
    ghost sound: { (k : ℕ) → k < count → at_fault rungs k ≡ false },
}

// Whether a rung's numbers are out of range, or its level is not above that of the rung below.
fn is_at_fault(rungs: &[Rung], k: usize) -> bool
    requires { k < length rungs.now }
    ensures { result ≡ at_fault rungs.now k }
{
    let rung = rungs[k];
    let in_range = (-1_000_000..=1_000_000).contains(&rung.level) && rung.price <= Price::HIGHEST;
    !in_range || (k > 0 && rung.level <= rungs[k - 1].level)
}

impl Ladder {
    ghost use Rattle.pricing.specs.Ladders.{Made, rungs_of, highest, at_or_below};

    pub const MOST: usize = 32;

    // From its rungs, lowest first.
    pub fn new(rungs: &[Rung]) -> Result<Ladder, Malformed>
        ensures { Made rungs.now result }
    {
        let count = rungs.len();
        if count < 1 || count > Ladder::MOST {
            return Err(Malformed::Count);
        }
        let mut own = [Rung::default(); Ladder::MOST];
        for (k, rung) in rungs.iter().enumerate() {
            if is_at_fault(rungs, k) {
                return Err(Malformed::Entry(k as u32));
            }
            own[k] = *rung;
        }
        Ok(Ladder { rungs: own, count })
    }

    // The highest rung at or below m.
    pub fn rung_at(&self, m: i32) -> Option<Rung>
        ensures { result ≡ highest (filter (at_or_below m) (rungs_of self.now)) }
    {
        for rung in self.rungs[..self.count].iter().rev() {
            if rung.level <= m {
                return Some(*rung);
            }
        }
        None
    }
}

impl PricingModel for Ladder {
    ghost use Rattle.pricing.specs.Ladders.{rungs_of, ladder_price};
    ghost use Rattle.pricing.specs.Climbs.{ladder_priced};

    ghost tells = { λ ladder right strike underlying. ladder_price (rungs_of ladder) (moneyness right strike underlying) };

    ghost priced = { λ ladder right strike underlying s u. ladder_priced ladder.rungs ladder.count ladder.sound (moneyness right strike underlying) };

    fn price(&self, right: Right, strike: Price, underlying: Price) -> Price {
        let Some(rung) = self.rung_at(moneyness(right, strike, underlying)) else {
            return Price::ZERO;
        };
        Price::try_from(rung.price).unwrap()
    }
}
