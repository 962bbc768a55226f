// The established market price of a product, from the products, the book, the tape, the day and the time.
ghost use Rattle.std.specs.Prelude.{◌≡◌, ◌<◌, ◌≤◌};
ghost use Rattle.std.specs.Option.{option_map};
ghost use Rattle.listing.specs.Questions.{product_in, listed_check};
ghost use Rattle.terms.specs.Checked.{price_at};
ghost use Rattle.terms.specs.Checks.{answered};
ghost use Rattle.terms.specs.Ranges.{highest_price};
ghost use Rattle.established.specs.Averages.{ticks_of, recent_average};
ghost use Rattle.established.specs.Corrections.{corrected_in};
ghost use Rattle.established.specs.Days.{last_worth};
ghost use Rattle.established.specs.Established.{carried as carried_over, told_by_trades, established_spot, established_future, option_worth, established};
ghost use Rattle.established.specs.Moments.{moment_of};

use listing::kind::Kind;
use listing::product::Product;
use listing::products::Products;
use orders::questions::top;
use orders::row::OrderRow;
use pricing::model::PricingModel;
use tape::Tape;
use tape::day::last_of_day;
use tape::window::Sums;
use terms::price::Price;
use terms::refusal::Refusal;
use terms::right::Right;

#[derive(Drop)]
pub struct Moment<'a, T> {
    pub products: &'a Products,
    pub table: &'a [OrderRow],
    pub tape: &'a T,
    pub day: u32,
    // in seconds
    pub time: u32,
}

// The spot price moved by the distance of the reference prices.
fn carried(spot: Price, own: Price, spot_reference: Price) -> Price
    ensures { result.ticks ≡ carried_over spot.ticks own.ticks spot_reference.ticks }
{
    let sum = spot.ticks() + own.ticks();
    Price::ZERO.raised(sum.saturating_sub(spot_reference.ticks()))
}

// A match stands where a closure could: one that asks through self needs its contract written out beside it.
impl<T: Tape> Moment<'_, T> {
    #[tactic(auto, using(crate::proofs::Means::average_priced, terms::proofs::Checked::price_ok))]
    fn recent_average(&self, n: u32) -> Option<Price>
        ensures { option_map ticks_of result ≡ recent_average (T.Tape.records self.now.tape.now) n self.now.time }
    {
        let sums = Sums::before(self.tape, n, self.time);
        let average = sums.turnover.checked_div(sums.volume)?;
        // an average of prices is one
        Some(Price::try_from(average as u32).unwrap())
    }

    fn last_worth(&self, n: u32, product: Product) -> Option<Price>
        requires { product.reference ≤ highest_price }
        ensures { option_map ticks_of result ≡ last_worth product (T.Tape.records self.now.tape.now) n self.now.day }
    {
        last_of_day(self.tape, n, self.day).map(|last| {
            if last.number <= product.adjusted {
                product.reference_price()
            } else {
                last.price
            }
        })
    }

    // The best buy where it is above, else the best sell where it is below.
    #[tactic(auto, unfolding(crate::specs::Corrections::corrected_in))]
    fn corrected(&self, n: u32, worth: Price) -> Price
        ensures { result.ticks ≡ corrected_in self.now.table.now n worth.ticks }
    {
        let (buy, sell) = top(self.table, n);
        buy.filter(|b| *b > worth)
            .or(sell.filter(|s| *s < worth))
            .unwrap_or(worth)
    }

    // The average of the window, else the last trade of the day, corrected.
    fn told_by_trades(&self, n: u32, product: Product) -> Option<Price>
        requires { product.reference ≤ highest_price }
        ensures { option_map ticks_of result ≡ told_by_trades (moment_of T.Tape.records self.now) n product }
    {
        let average = self.recent_average(n);
        if average.is_some() {
            return average;
        }
        Some(self.corrected(n, self.last_worth(n, product)?))
    }

    // The price of product 0.
    #[tactic(auto, unfolding(crate::specs::Established::established_spot, crate::specs::Established::established_from))]
    fn spot(&self) -> Price
        ensures { result.ticks ≡ established_spot self.now.products.now (moment_of T.Tape.records self.now) }
    {
        let product = self.products.spot();
        match self.told_by_trades(0, product) {
            Some(price) => price,
            None => self.corrected(0, product.reference_price()),
        }
    }

    // The price of a future.
    #[tactic(auto, unfolding(crate::specs::Established::established_future, crate::specs::Established::established_from))]
    fn future(&self, n: u32, product: Product) -> Price
        requires listed { n < self.now.products.now.count }
        requires same { product ≡ product_in self.now.products.now n }
        ensures { result.ticks ≡ established_future self.now.products.now (moment_of T.Tape.records self.now) n }
    {
        if n == 0 {
            return self.spot();
        }
        match self.told_by_trades(n, product) {
            Some(price) => price,
            None => {
                let spot_reference = self.products.spot().reference_price();
                let worth = carried(self.spot(), product.reference_price(), spot_reference);
                self.corrected(n, worth)
            }
        }
    }

    // What an option is worth without a trade.
    fn option_worth<M: PricingModel>(
        &self,
        model: &M,
        right: Right,
        strike: u32,
        underlying: u32,
    ) -> Price
        requires strike { strike ≤ highest_price }
        requires listed { underlying < self.now.products.now.count }
        ensures { result.ticks ≡ option_worth self.now.products.now (moment_of T.Tape.records self.now) (M.PricingModel.tells model.now) right strike underlying }
    {
        let product = self.products.product(underlying).unwrap();
        let price = self.future(underlying, product);
        model.price(right, Price::try_from(strike).unwrap(), price)
    }

    // The established market price of a product.
    #[tactic(auto, using(terms::proofs::Checked::price_is), unfolding(crate::specs::Established::established, crate::specs::Established::established_from))]
    pub fn established<M: PricingModel>(&self, model: &M, product: u32) -> Result<Price, Refusal>
        ensures answer { result ≡ answered (listed_check self.now.products.now product) (price_at (established self.now.products.now (moment_of T.Tape.records self.now) (M.PricingModel.tells model.now) product)) }
        ensures whole { product < self.now.products.now.count → established self.now.products.now (moment_of T.Tape.records self.now) (M.PricingModel.tells model.now) product ≤ highest_price }
    {
        let found = self.products.product(product)?;
        match found.listed.kind {
            Kind::Future => Ok(self.future(product, found)),
            Kind::Option {
                right,
                strike,
                underlying,
            } => match self.told_by_trades(product, found) {
                Some(price) => Ok(price),
                None => {
                    let worth = self.option_worth(model, right, strike, underlying);
                    Ok(self.corrected(product, worth))
                }
            },
        }
    }
}
