// What is asked of the products.
ghost use Rattle.std.specs.Prelude.{◌≡◌};
ghost use Rattle.terms.specs.Checks.{answered};
ghost use Rattle.listing.specs.Listings.{products_of};
ghost use Rattle.listing.specs.Questions.{product_in, listed_check, range_of, sweep_of, any_halted};

use crate::product::Product;
use crate::products::Products;
use limits::range::Range;
use limits::sweep::{anchor, sweep_price};
use terms::price::Price;
use terms::refusal::Refusal;
use terms::side::Side;

impl Products {
    pub fn count(&self) -> u32
        ensures { result ≡ self.now.count }
    {
        self.count as u32
    }

    // in days
    pub fn day_limit(&self) -> u32
        ensures { result ≡ self.now.limit }
    {
        self.limit
    }

    // The spot month.
    pub fn spot(&self) -> Product
        ensures { result ≡ product_in self.now 0 }
    {
        self.rows[0]
    }

    pub fn product(&self, n: u32) -> Result<Product, Refusal>
        ensures { result ≡ answered (listed_check self.now n) (product_in self.now n) }
    {
        let listed = &self.rows[..self.count];
        listed.get(n as usize).copied().ok_or(Refusal::NotListed(n))
    }

    // Whether any product is halted by itself.
    pub fn is_any_halted(&self) -> bool
        ensures { result ≡ any_halted (products_of self.now) }
    {
        self.rows[..self.count].iter().any(|p| p.halted)
    }

    // The lowest and the highest price at which a product may trade.
    pub fn range(&self, n: u32) -> Result<Range, Refusal>
        ensures { result ≡ answered (listed_check self.now n) (range_of (product_in self.now n)) }
    {
        let product = self.product(n)?;
        Ok(Range::around(product.reference_price(), product.daily_ticks()))
    }

    // How far an arriving order of a side may reach, with the best price offered on the opposite side of the product's book.
    pub fn sweep_price(
        &self,
        side: Side,
        n: u32,
        best_opposite: Option<Price>,
    ) -> Result<Price, Refusal>
        ensures { result ≡ answered (listed_check self.now n) (sweep_of side best_opposite (product_in self.now n)) }
    {
        let product = self.product(n)?;
        Ok(sweep_price(
            side,
            anchor(best_opposite, product.reference_price()),
            product.listed.sweep,
        ))
    }
}
