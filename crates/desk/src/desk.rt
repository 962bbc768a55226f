// What the desk knows besides its book.
ghost use Rattle.std.specs.Prelude.{◌≡◌};
ghost use Rattle.std.specs.Option.{option_map};
ghost use Rattle.limits.specs.Ranges.{tradeable_range};
ghost use Rattle.terms.specs.Checked.{price_at};
ghost use Rattle.terms.specs.Checks.{answered, earliest, left_by};
ghost use Rattle.desk.specs.Desks.{empty_desk, figures_fine, listing_checks, listed_desk, product_or, range_of, top_of};
ghost use Rattle.desk.specs.Entries.{sweep_of, incoming_of, limit_check, desk_checks, comes_in, DeskEnters};

use book::entering::enter;
use book::incoming::Incoming;
use book::outcome::Receipt;
use console::command::Order;
use limits::range::Range;
use limits::sweep::{anchor, hold_limit, sweep_price};
use orders::questions::{best_facing, top};
use orders::row::OrderRow;
use tape::Tape;
use terms::malformed::Malformed;
use terms::participant::Participant;
use terms::price::Price;
use terms::quantity::Quantity;
use terms::refusal::Refusal;
use terms::side::Side;

pub const MOST_SWEEP: u32 = 1_000;

pub const MOST_DAILY: u32 = 100_000;

#[derive(Clone, Copy, PartialEq, Eq, Debug)]
pub struct Product {
    pub sweep: u32,
    pub daily: u32,
    pub reference: Price,
}

#[derive(Clone, Copy, PartialEq, Eq, Debug)]
pub struct Desk {
    pub product: Option<Product>,
    // the last number given to an order
    pub stamp: u32,
    pub halted: bool,
}

fn is_fine(sweep: u32, daily: u32) -> bool
    ensures { result ≡ figures_fine sweep daily }
{
    (1..=MOST_SWEEP).contains(&sweep) && (1..=MOST_DAILY).contains(&daily)
}

// A limit in whole ticks as a price; a market order has none.
fn limit_of(limit: Option<u32>) -> Result<Option<Price>, Refusal>
    ensures { result ≡ answered (limit_check limit) (option_map price_at limit) }
{
    Ok(limit.map(Price::try_from).transpose()?)
}

impl Product {
    // The range in which the product may trade.
    fn range(self) -> Range
        ensures { result ≡ tradeable_range self.reference.ticks self.daily }
    {
        Range::around(self.reference, self.daily)
    }

    fn sweep_for(self, side: Side, table: &[OrderRow]) -> Price
        ensures { result ≡ sweep_of self side table.now }
    {
        let anchor = anchor(best_facing(table, side, 0), self.reference);
        sweep_price(side, anchor, self.sweep)
    }

    // Its trades are written with the reference price, at time 0 of day 0.
    fn incoming(
        self,
        order: Order,
        limit: Price,
        quantity: Quantity,
        participant: Participant,
    ) -> Incoming
        ensures { result ≡ incoming_of self order limit quantity participant }
    {
        Incoming {
            side: order.side,
            product: 0,
            participant,
            limit,
            quantity,
            duration: order.duration,
            time: 0,
            day: 0,
            established: self.reference,
            no_bust: 0,
        }
    }
}

impl Desk {
    // No product is listed at first.
    pub fn new() -> Desk
        ensures { result ≡ empty_desk }
    {
        Desk {
            product: None,
            stamp: 0,
            halted: false,
        }
    }

    fn listed(&self) -> Result<Product, Refusal>
        ensures { result ≡ product_or self.now.product }
    {
        self.product.ok_or(Refusal::NotListed(0))
    }

    // The figures of the product from now on; its book stays, and a halt is lifted.
    pub fn list(&mut self, sweep: u32, daily: u32, reference: u32) -> Result<(), Refusal>
        ensures answer { result ≡ answered (earliest (listing_checks sweep daily reference)) tt }
        ensures after { self.new ≡ left_by (earliest (listing_checks sweep daily reference)) self.old (listed_desk self.old sweep daily reference) }
    {
        if !is_fine(sweep, daily) {
            return Err(Refusal::Malformed(Malformed::Entry(0)));
        }
        let reference = Price::try_from(reference)?;
        self.product = Some(Product {
            sweep,
            daily,
            reference,
        });
        self.halted = false;
        Ok(())
    }

    // The best buy and the best sell.
    pub fn top(&self, table: &[OrderRow]) -> Result<(Option<Price>, Option<Price>), Refusal>
        ensures { result ≡ top_of self.now.product table.now }
    {
        let _ = self.listed()?;
        Ok(top(table, 0))
    }

    // The range in which the product may trade.
    pub fn range(&self) -> Result<Range, Refusal>
        ensures { result ≡ range_of self.now.product }
    {
        Ok(self.listed()?.range())
    }

    // The order as it comes in, once nothing stops it at the desk.
    fn prepare(
        &self,
        product: Product,
        table: &[OrderRow],
        order: Order,
    ) -> Result<Incoming, Refusal>
        ensures { result ≡ answered (earliest (desk_checks product self.now.halted table.now order)) (comes_in product table.now order) }
    {
        let sweep = product.sweep_for(order.side, table);
        let limit = limit_of(order.limit)?;
        let quantity = Quantity::try_from(order.quantity)?;
        let participant = Participant::try_from(order.participant)?;
        if self.halted {
            return Err(Refusal::Halted(0));
        }
        hold_limit(order.side, limit, sweep)?;
        // a market order is a limit order at its sweep price
        Ok(product.incoming(order, limit.unwrap_or(sweep), quantity, participant))
    }

    // The order is entered in the book.
    pub fn enter<T: Tape>(
        &mut self,
        table: &mut [OrderRow],
        tape: &mut T,
        order: Order,
    ) -> Result<Receipt<bool>, Refusal>
        ensures { DeskEnters T.Tape.records T.Tape.space self.old.product order self.old table.old tape.old result self.new table.new tape.new }
    {
        let product = self.listed()?;
        let incoming = self.prepare(product, table, order)?;
        let receipt = enter(table, tape, 1, self.stamp, incoming, product.range())?;
        self.stamp = receipt.number;
        self.halted = receipt.halt;
        Ok(receipt)
    }
}
