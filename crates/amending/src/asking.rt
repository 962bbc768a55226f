// What stops an amendment before its trades and its stamp.
ghost use Rattle.std.specs.Prelude.{◌≡◌, ◌++◌};
ghost use Rattle.terms.specs.Checks.{answered, earliest};
ghost use Rattle.amending.specs.Amendments.{call_checks, terms_checks, terms_as, MayAmend};
ghost use Rattle.market.specs.Markets.{bare, bare_state};

use crate::amended::{Amended, Terms};
use entering::admission::sweep_for;
use limits::sweep::hold_limit;
use market::market::Market;
use orders::row::OrderRow;
use rules::amendment::Amendment;
use rules::owners::own_order;
use rules::phases::is_closed;
use rules::state::State;
use rules::turns::hold_time;
use terms::participant::Participant;
use terms::price::Price;
use terms::quantity::Quantity;
use terms::refusal::Refusal;

// A call for every phase but the closed one.
fn hold_day(state: State, time: u32) -> Result<(), Refusal>
    ensures { result ≡ answered (earliest (call_checks (bare_state state) time)) tt }
{
    hold_time(state, time)?;
    if is_closed(state.phase) {
        return Err(Refusal::WrongPhase(state.phase));
    }
    Ok(())
}

// An amendment's own numbers.
fn read_terms(m: Amendment) -> Result<Terms, Refusal>
    ensures { result ≡ answered (earliest (terms_checks m)) (terms_as m) }
{
    let price = Price::try_from(m.price)?;
    let quantity = Quantity::try_from(m.quantity)?;
    let _ = Participant::try_from(m.participant)?;
    Ok(Terms { price, quantity })
}

// What is asked before the table is: time, phase and numbers.
fn asked(state: State, time: u32, m: Amendment) -> Result<Terms, Refusal>
    ensures { result ≡ answered (earliest (call_checks (bare_state state) time ++ terms_checks m)) (terms_as m) }
{
    hold_day(state, time)?;
    read_terms(m)
}

// A new price is held to the sweep price.
pub(crate) fn amendable<M>(
    market: &Market<M>,
    table: &[OrderRow],
    time: u32,
    m: Amendment,
) -> Result<Amended, Refusal>
    ensures { MayAmend (bare market.now.state market.now.products table.now) time m result }
{
    let terms = asked(market.state, time, m)?;
    let entry = own_order(table, market.products.count(), m.participant, m.order)?;
    let order = entry.order;
    let product = market.products.product(order.product).unwrap();
    let amended = Amended {
        entry,
        product,
        terms,
    };
    let new_price = amended.has_new_price().then_some(terms.price);
    let sweep = sweep_for(product, order.side, order.product, table);
    hold_limit(order.side, new_price, sweep)?;
    Ok(amended)
}
