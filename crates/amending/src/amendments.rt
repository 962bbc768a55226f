// An order is amended.
ghost use Rattle.std.specs.Prelude.{◌≡◌, ◌+◌, ◌<◌, not, ◌||◌, if◌then◌else◌, nat_lt, MatchOption};
ghost use Rattle.listing.specs.Changes.{contents};
ghost use Rattle.rules.specs.Calls.{amend as amending, received, told};
ghost use Rattle.rules.specs.Held.{product_in};
ghost use Rattle.rules.specs.Rules.{Step};
ghost use Rattle.terms.specs.Checks.{answered, unless};
ghost use Rattle.terms.specs.Stamps.{last_stamp, stamp_at};
ghost use Rattle.terms.specs.declared.refusal.Refusal.TheVariants.{Exhausted as used_up};
ghost use Rattle.amending.specs.Amendments.{ArrivesAs};
ghost use Rattle.market.specs.Markets.{world_of};

use crate::amended::Amended;
use crate::asking::amendable;
use book::arriving::Arriving;
use book::incoming::Incoming;
use book::sweep::lots;
use entering::noted::note_arrival;
use established::moment::Moment;
use market::market::Market;
use orders::resting::put;
use orders::row::OrderRow;
use pricing::model::PricingModel;
use returning::come_back;
use rules::amendment::Amendment;
use rules::receipt::Receipt;
use tape::Tape;
use terms::halt::Halt;
use terms::refusal::Refusal;
use terms::stamp::Stamp;

// The stamp that an amendment takes, if it takes one.
fn stamp_taken(last: u32, takes: bool) -> Result<Option<Stamp>, Refusal>
    ensures { result ≡ answered (unless (not takes || nat_lt last last_stamp) used_up) (if takes then Some (stamp_at (last + 1)) else None) }
{
    if takes {
        Stamp::after(last).map(Some).ok_or(Refusal::Exhausted)
    } else {
        Ok(None)
    }
}

// The last stamp given, once this one is taken.
fn last_given(last: u32, taken: Option<Stamp>) -> u32
    ensures { MatchOption taken (result ≡ last) (λ stamp. result ≡ stamp.number) }
{
    taken.map_or(last, Stamp::number)
}

// The amended order as it arrives at its new price.
fn arriving<M: PricingModel, T: Tape>(
    market: &Market<M>,
    table: &[OrderRow],
    tape: &T,
    time: u32,
    a: Amended,
) -> Arriving
    requires listed { a.entry.order.product < market.now.products.count }
    requires product { a.product ≡ product_in (contents market.now.products) a.entry.order.product }
    ensures { ArrivesAs (world_of M.PricingModel.tells T.Tape.records T.Tape.space market.now table.now tape.now) time a result }
{
    let order = a.entry.order;
    let day = market.state.day;
    let moment = Moment {
        products: &market.products,
        table,
        tape,
        day,
        time,
    };
    Arriving {
        number: order.number,
        order: Incoming {
            side: order.side,
            product: order.product,
            participant: order.participant,
            limit: a.terms.price,
            quantity: a.terms.quantity,
            duration: order.duration,
            time,
            day,
            established: moment.established(&market.model, order.product).unwrap(),
            no_bust: a.product.listed.no_bust,
        },
    }
}

// A new price arrives like an entry where the product trades; any other change is made in place.
pub fn amend<M: PricingModel, T: Tape>(
    market: &mut Market<M>,
    table: &mut [OrderRow],
    tape: &mut T,
    time: u32,
    m: Amendment,
) -> Result<Receipt, Refusal>
    ensures { Step (world_of M.PricingModel.tells T.Tape.records T.Tape.space market.old table.old tape.old) time (amending m) (told received result) (world_of M.PricingModel.tells T.Tape.records T.Tape.space market.new table.new tape.new) }
{
    let a = amendable(market, table, time, m)?;
    let order = a.entry.order;
    if a.arrives_again(market.state) {
        let arriving = arriving(market, table, tape, time, a);
        let range = market.products.range(order.product)?;
        let swept = come_back(table, tape, market.state.stamp, a.entry, arriving, range)?;
        let stamp = market.state.stamp + 1;
        let halt = note_arrival(market, time, stamp, order.product, swept.halted);
        return Ok(Receipt {
            number: order.number.number(),
            traded: swept.traded,
            rest: lots(swept.rest),
            trades: swept.trades,
            halt,
        });
    }
    let stamp = stamp_taken(market.state.stamp, a.takes_stamp())?;
    let place = stamp.unwrap_or(order.place);
    put(
        table,
        a.entry.index,
        order.moved(place, a.terms.price, a.terms.quantity),
    );
    market.state.time = time;
    market.state.stamp = last_given(market.state.stamp, stamp);
    Ok(Receipt {
        number: order.number.number(),
        traded: 0,
        rest: a.terms.quantity.lots(),
        trades: 0,
        halt: Halt::Nothing,
    })
}
