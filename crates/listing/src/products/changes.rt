// Changes of one product, which leave all others as they are, and of all at once.
ghost use Rattle.std.specs.Prelude.{◌≡◌, ◌<◌, ◌≤◌, true};
ghost use Rattle.terms.specs.Checks.{answered, left_by};
ghost use Rattle.terms.specs.Ranges.{highest_price};
ghost use Rattle.listing.specs.Changes.{contents, with_product, with_reference, with_frenetic, with_halt, widen_check, without_halts, all_prices, with_settlements, settle_check};
ghost use Rattle.listing.specs.Product.{frenetic_fits};
ghost use Rattle.listing.specs.Questions.{product_in, listed_check};

use crate::entry::Listed;
use crate::product::Product;
use crate::products::Products;
use terms::field::Field;
use terms::price::Price;
use terms::refusal::Refusal;

fn fits_frenetic(daily: u32, frenetic: Option<u32>) -> bool
    ensures { result ≡ frenetic_fits daily frenetic }
{
    frenetic.is_none_or(|ticks| daily < ticks && ticks <= Listed::WIDEST_DAILY)
}

fn are_prices(numbers: &[u32]) -> bool
    ensures { result ≡ all_prices numbers.now }
{
    numbers.iter().all(|n| *n <= Price::HIGHEST)
}

impl Products {
    fn write(&mut self, n: u32, product: Product)
        requires there { n < self.old.count }
        requires listed { product.listed ≡ (product_in self.old n).listed }
        requires priced { product.reference ≤ highest_price }
        requires widened { frenetic_fits product.listed.daily product.frenetic ≡ true }
        ensures { contents self.new ≡ with_product self.old n product }
    {
        self.rows[n as usize] = product;
    }

    // A new reference price, while the tape holds so many records.
    pub fn adjust(&mut self, n: u32, price: Price, records: u32) -> Result<(), Refusal>
        ensures answer { result ≡ answered (listed_check self.old n) tt }
        ensures after { contents self.new ≡ left_by (listed_check self.old n) (contents self.old) (with_product self.old n (with_reference price.ticks records (product_in self.old n))) }
    {
        let product = self.product(n)?;
        self.write(
            n,
            Product {
                reference: price.ticks(),
                adjusted: records,
                ..product
            },
        );
        Ok(())
    }

    // Wider daily ticks for a time, or 0 for the listed ones.
    pub fn widen(&mut self, n: u32, ticks: u32) -> Result<(), Refusal>
        ensures answer { result ≡ answered (widen_check self.old n ticks) tt }
        ensures after { contents self.new ≡ left_by (widen_check self.old n ticks) (contents self.old) (with_product self.old n (with_frenetic ticks (product_in self.old n))) }
    {
        let product = self.product(n)?;
        let frenetic = (ticks != 0).then_some(ticks);
        if !fits_frenetic(product.listed.daily, frenetic) {
            return Err(Refusal::OutOfRange(Field::FreneticTicks));
        }
        self.write(
            n,
            Product {
                frenetic,
                ..product
            },
        );
        Ok(())
    }

    pub fn halt(&mut self, n: u32) -> Result<(), Refusal>
        ensures answer { result ≡ answered (listed_check self.old n) tt }
        ensures after { contents self.new ≡ left_by (listed_check self.old n) (contents self.old) (with_product self.old n (with_halt true (product_in self.old n))) }
    {
        let product = self.product(n)?;
        self.write(
            n,
            Product {
                halted: true,
                ..product
            },
        );
        Ok(())
    }

    // Every product without a halt.
    pub fn lift(&mut self)
        ensures { contents self.new ≡ without_halts self.old }
    {
        for n in 0..self.count {
            self.rows[n].halted = false;
        }
    }

    // A settlement price for each product, in the order of their numbers, becomes its reference price.
    pub fn settle(&mut self, prices: &[u32]) -> Result<(), Refusal>
        ensures answer { result ≡ answered (settle_check self.old prices.now) tt }
        ensures after { contents self.new ≡ left_by (settle_check self.old prices.now) (contents self.old) (with_settlements self.old prices.now) }
    {
        if !are_prices(prices) {
            return Err(Refusal::OutOfRange(Field::Price));
        }
        if prices.len() != self.count {
            return Err(Refusal::OutOfRange(Field::Settlements));
        }
        for (n, price) in prices.iter().enumerate() {
            self.rows[n].reference = *price;
        }
        Ok(())
    }
}
