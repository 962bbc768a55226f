// What stops an entry before it comes to the book.
ghost use Rattle.std.specs.Prelude.{◌≡◌, []};
ghost use Rattle.listing.specs.Changes.{contents};
ghost use Rattle.listing.specs.Questions.{sweep_of};
ghost use Rattle.orders.specs.Questions.{best_facing};
ghost use Rattle.rules.specs.Held.{product_in};
ghost use Rattle.rules.specs.Refusing.{date_check};
ghost use Rattle.terms.specs.Checks.{answered, earliest};
ghost use Rattle.entering.specs.Entries.{front_checks, place_checks, number_checks, numbers_as, admitted_as};
ghost use Rattle.market.specs.Markets.{bare};

use crate::admitted::{Admitted, Numbers};
use limits::sweep::{anchor, hold_limit, sweep_price};
use listing::product::Product;
use market::market::Market;
use orders::questions::best_facing;
use orders::row::OrderRow;
use rules::new_order::NewOrder;
use rules::phases::in_session;
use rules::turns::hold_time;
use terms::duration::Duration;
use terms::field::Field;
use terms::participant::Participant;
use terms::price::Price;
use terms::quantity::Quantity;
use terms::refusal::Refusal;
use terms::side::Side;

// The sweep price of an order of a side.
pub fn sweep_for(product: Product, side: Side, n: u32, table: &[OrderRow]) -> Price
    ensures { result ≡ sweep_of side (best_facing side n table.now) product }
{
    sweep_price(
        side,
        anchor(best_facing(table, side, n), product.reference_price()),
        product.listed.sweep,
    )
}

// A date before today is no date.
fn hold_date(duration: Duration, day: u32) -> Result<(), Refusal>
    ensures { result ≡ answered (date_check day duration) tt }
{
    match duration {
        Duration::Until(date) if date < day => Err(Refusal::OutOfRange(Field::Date)),
        _ => Ok(()),
    }
}

// The product of an entry, in a session of its market.
fn entered_product<M>(market: &Market<M>, time: u32, o: NewOrder) -> Result<Product, Refusal>
    ensures { result ≡ answered (earliest (place_checks (bare market.now.state market.now.products []) time o)) (product_in (contents market.now.products) o.product) }
{
    hold_time(market.state, time)?;
    if !in_session(market.state.phase) {
        return Err(Refusal::WrongPhase(market.state.phase));
    }
    market.products.product(o.product)
}

// An entry's own numbers.
fn read_numbers(o: NewOrder, day: u32) -> Result<Numbers, Refusal>
    ensures { result ≡ answered (earliest (number_checks day o)) (numbers_as o) }
{
    let limit = o.limit.map(Price::try_from).transpose()?;
    let quantity = Quantity::try_from(o.quantity)?;
    let participant = Participant::try_from(o.participant)?;
    hold_date(o.duration, day)?;
    Ok(Numbers {
        limit,
        quantity,
        participant,
    })
}

// A market order is a limit order at its sweep price.
pub fn admit<M>(
    market: &Market<M>,
    table: &[OrderRow],
    time: u32,
    o: NewOrder,
) -> Result<Admitted, Refusal>
    ensures { result ≡ answered (earliest (front_checks (bare market.now.state market.now.products table.now) time o)) (admitted_as (bare market.now.state market.now.products table.now) o) }
{
    let product = entered_product(market, time, o)?;
    let Numbers {
        limit,
        quantity,
        participant,
    } = read_numbers(o, market.state.day)?;
    if market.state.halted || product.halted {
        return Err(Refusal::Halted(o.product));
    }
    let sweep = sweep_for(product, o.side, o.product, table);
    hold_limit(o.side, limit, sweep)?;
    Ok(Admitted {
        product,
        limit: limit.unwrap_or(sweep),
        quantity,
        participant,
    })
}
