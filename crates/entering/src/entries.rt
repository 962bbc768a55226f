// An order is entered.
ghost use Rattle.std.specs.Prelude.{◌≡◌};
ghost use Rattle.rules.specs.Calls.{enter as entering, received, told};
ghost use Rattle.rules.specs.Rules.{Step};
ghost use Rattle.entering.specs.Entries.{Admits};
ghost use Rattle.market.specs.Markets.{world_of};

use crate::admission::admit;
use crate::noted::note_arrival;
use book::entering::enter as enter_book;
use book::incoming::Incoming;
use established::moment::Moment;
use market::market::Market;
use orders::row::OrderRow;
use pricing::model::PricingModel;
use rules::new_order::NewOrder;
use rules::receipt::Receipt;
use tape::Tape;
use terms::refusal::Refusal;

// The order as it comes to the book, once nothing stops it before.
fn incoming<M: PricingModel, T: Tape>(
    market: &Market<M>,
    table: &[OrderRow],
    tape: &T,
    time: u32,
    o: NewOrder,
) -> Result<Incoming, Refusal>
    ensures { Admits (world_of M.PricingModel.tells T.Tape.records T.Tape.space market.now table.now tape.now) time o result }
{
    let admitted = admit(market, table, time, o)?;
    let day = market.state.day;
    let moment = Moment {
        products: &market.products,
        table,
        tape,
        day,
        time,
    };
    let established = moment.established(&market.model, o.product)?;
    Ok(Incoming {
        side: o.side,
        product: o.product,
        participant: admitted.participant,
        limit: admitted.limit,
        quantity: admitted.quantity,
        duration: o.duration,
        time,
        day,
        established,
        no_bust: admitted.product.listed.no_bust,
    })
}

// The order trades, and what is left of it rests.
pub fn enter<M: PricingModel, T: Tape>(
    market: &mut Market<M>,
    table: &mut [OrderRow],
    tape: &mut T,
    time: u32,
    o: NewOrder,
) -> Result<Receipt, Refusal>
    ensures { Step (world_of M.PricingModel.tells T.Tape.records T.Tape.space market.old table.old tape.old) time (entering o) (told received result) (world_of M.PricingModel.tells T.Tape.records T.Tape.space market.new table.new tape.new) }
{
    let incoming = incoming(market, table, tape, time, o)?;
    let range = market.products.range(o.product)?;
    let done = enter_book(
        table,
        tape,
        market.products.count(),
        market.state.stamp,
        incoming,
        range,
    )?;
    let halt = note_arrival(market, time, done.number, o.product, done.halt);
    Ok(done.with_halt(halt))
}
