// The products of a market, numbered from 0, and its day limit.
ghost use Rattle.std.specs.Prelude.{◌≡◌, ℕ, ◌<◌, ◌≤◌, true, false};
ghost use Rattle.terms.specs.Ranges.{highest_price};
ghost use Rattle.listing.specs.Entries.{at_fault};
ghost use Rattle.listing.specs.Product.{entries, frenetic_fits, product_at};
ghost use Rattle.listing.specs.Ranges.{most_products, longest_limit};

use crate::product::Product;

mod changes;
mod makes;
mod questions;

#[derive(Clone, Copy, PartialEq, Eq, Debug)]
pub struct Products {
    // what is above the count is not part of the listing: a buffer, since no heap is at hand and an ArrayVec is not Copy
    rows: [Product; Products::MOST],
    count: usize,
    // in days
    limit: u32,
    ghost some: { 1 ≤ count },
    ghost few: { count ≤ most_products },
    ghost lasting: { 1 ≤ limit },
    ghost brief: { limit ≤ longest_limit },
    ghost sound: { (k : ℕ) → k < count → at_fault (entries rows) k ≡ false },
    ghost priced: { (k : ℕ) → k < count → (product_at rows k).reference ≤ highest_price },
    ghost widened: { (k : ℕ) → k < count → frenetic_fits (product_at rows k).listed.daily (product_at rows k).frenetic ≡ true },
}

impl Products {
    pub const MOST: usize = 32;

    // in days
    pub const LONGEST_LIMIT: u32 = 365;
}
