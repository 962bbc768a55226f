// The two sides of the book: which order comes first, and which price a limit reaches.
ghost use Rattle.std.specs.Prelude.{◌≡◌, ℕ, Bool, true, false, not, ◌&&◌, ◌||◌, ◌≢◌, ◌==◌, nat_le, nat_lt};
ghost use Rattle.orders.specs.Orders.{row_of};
ghost use Rattle.orders.specs.Queue.{higher_first, lower_first};
ghost use Rattle.orders.specs.Rows.{side_code};
ghost use Rattle.orders.specs.declared.row.OrderRow.{OrderRow as Row};
ghost use Rattle.orders.specs.Ranks.{higher_by_price, lower_by_price, first_oneway, first_chain, first_decided, first_nearer};

use crate::order::Order;
use terms::price::Price;
use terms::side::Side;

// A side of resting orders.
pub trait BookSide {
    ghost code: { ℕ };

    ghost first: { Row → Row → Bool };

    // the limit of an order that arrives from the other side, and a resting price
    ghost reaches: { ℕ → ℕ → Bool };

    fn side() -> Side
        ensures { side_code result ≡ code };

    fn comes_first(a: Order, b: Order) -> bool
        ensures { result ≡ first (row_of a) (row_of b) };

    fn reached(limit: Price, price: Price) -> bool
        ensures { result ≡ reaches limit.ticks price.ticks };

    ghost oneway: { (a b : Row) → first a b ≡ true → first b a ≡ false };

    ghost chain: { (a b c : Row) → first a b ≡ false → first b c ≡ false → first a c ≡ false };

    ghost decided: { (a b : Row) → (a.place ≢ b.place) → first a b ≡ not (first b a) };

    // a limit that reaches an order reaches every one that stands no further back in price
    ghost nearer: { (a b : Row) (limit : ℕ) → first b a ≡ false → reaches limit b.price ≡ true → reaches limit a.price ≡ true };
}

// A price that the other one, as a limit, does not reach is the better one; at one price the earlier order comes first.
fn is_ahead(reached: bool, a: Order, b: Order) -> bool
    ensures { result ≡ (not reached || (a.price.ticks == b.price.ticks && nat_lt a.place.number b.place.number)) }
{
    !reached || (a.price == b.price && a.place < b.place)
}

pub struct Buys;

pub struct Sells;

impl BookSide for Buys {
    ghost code = { 0 };

    ghost first = { higher_first };

    ghost reaches = { λ limit price. nat_le limit price };

    ghost oneway = { first_oneway higher_by_price };

    ghost chain = { first_chain higher_by_price };

    ghost decided = { first_decided higher_by_price };

    ghost nearer = { first_nearer higher_by_price };

    fn side() -> Side {
        Side::Buy
    }

    fn comes_first(a: Order, b: Order) -> bool {
        is_ahead(Buys::reached(a.price, b.price), a, b)
    }

    fn reached(limit: Price, price: Price) -> bool {
        limit <= price
    }
}

impl BookSide for Sells {
    ghost code = { 1 };

    ghost first = { lower_first };

    ghost reaches = { λ limit price. nat_le price limit };

    ghost oneway = { first_oneway lower_by_price };

    ghost chain = { first_chain lower_by_price };

    ghost decided = { first_decided lower_by_price };

    ghost nearer = { first_nearer lower_by_price };

    fn side() -> Side {
        Side::Sell
    }

    fn comes_first(a: Order, b: Order) -> bool {
        is_ahead(Sells::reached(a.price, b.price), a, b)
    }

    fn reached(limit: Price, price: Price) -> bool {
        price <= limit
    }
}
