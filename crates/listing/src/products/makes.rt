// Making the products of a market from a listing.
ghost use Rattle.std.specs.Prelude.{◌≡◌, ◌<◌, length};
ghost use Rattle.listing.specs.Entries.{ticks_fit, kind_fits, at_fault, listed_at};
ghost use Rattle.listing.specs.Listings.{Made};

use crate::entry::Listed;
use crate::kind::Kind;
use crate::product::Product;
use crate::products::Products;
use terms::malformed::Malformed;
use terms::price::Price;

fn fits_ticks(entry: Listed) -> bool
    ensures { result ≡ ticks_fit entry }
{
    (1..=Listed::WIDEST_SWEEP).contains(&entry.sweep)
        && (1..=Listed::WIDEST_DAILY).contains(&entry.daily)
        && entry.no_bust <= Listed::WIDEST_NO_BUST
}

// Over the entries with smaller numbers.
fn fits_kind(below: &[Listed], kind: Kind) -> bool
    ensures { result ≡ kind_fits (listed_at below.now) (length below.now) kind }
{
    match kind {
        Kind::Future => true,
        Kind::Option {
            strike,
            underlying,
            ..
        } => {
            let on = below.get(underlying as usize);
            on.is_some_and(|entry| entry.kind == Kind::Future) && strike <= Price::HIGHEST
        }
    }
}

fn is_at_fault(listing: &[Listed], n: usize) -> bool
    requires { n < length listing.now }
    ensures { result ≡ at_fault (listed_at listing.now) n }
{
    !(fits_ticks(listing[n]) && fits_kind(&listing[..n], listing[n].kind))
}

impl Products {
    pub fn new(listing: &[Listed], day_limit: u32) -> Result<Products, Malformed>
        ensures { Made listing.now day_limit result }
    {
        if !(1..=Products::MOST).contains(&listing.len()) {
            return Err(Malformed::Count);
        }
        if !(1..=Products::LONGEST_LIMIT).contains(&day_limit) {
            return Err(Malformed::DayLimit);
        }
        // those above the count stand as the first
        let mut rows = [Product::fresh(listing[0]); Products::MOST];
        for (n, entry) in listing.iter().enumerate() {
            if is_at_fault(listing, n) {
                return Err(Malformed::Entry(n as u32));
            }
            rows[n] = Product::fresh(*entry);
        }
        Ok(Products {
            rows,
            count: listing.len(),
            limit: day_limit,
        })
    }
}
