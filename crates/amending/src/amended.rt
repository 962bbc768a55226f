// An amendment whose numbers are checked, beside the order that it is for.
use listing::product::Product;
use orders::order::Entry;
use rules::phases::in_session;
use rules::state::State;
use terms::price::Price;
use terms::quantity::Quantity;

#[derive(Clone, Copy, PartialEq, Eq, Debug)]
pub(crate) struct Terms {
    pub(crate) price: Price,
    pub(crate) quantity: Quantity,
}

#[derive(Clone, Copy, PartialEq, Eq, Debug)]
pub(crate) struct Amended {
    pub(crate) entry: Entry,
    pub(crate) product: Product,
    pub(crate) terms: Terms,
}

impl Amended {
    ghost use Rattle.std.specs.Prelude.{◌≡◌, not, ◌&&◌, ◌||◌, ◌==◌, nat_lt};
    ghost use Rattle.rules.specs.Worlds.{in_session};

    pub(crate) fn has_new_price(&self) -> bool
        ensures { result ≡ not (self.now.terms.price.ticks == self.now.entry.order.price.ticks) }
    {
        self.terms.price != self.entry.order.price
    }

    // With a new price, where its product trades, it arrives like an entry.
    pub(crate) fn arrives_again(&self, state: State) -> bool
        ensures { result ≡ (not (self.now.terms.price.ticks == self.now.entry.order.price.ticks) && (in_session state.phase && not (state.halted || self.now.product.halted))) }
    {
        let is_open = in_session(state.phase) && !(state.halted || self.product.halted);
        self.has_new_price() && is_open
    }

    // A new price and an increase give up the place in time; a decrease keeps it.
    pub(crate) fn takes_stamp(&self) -> bool
        ensures { result ≡ (not (self.now.terms.price.ticks == self.now.entry.order.price.ticks) || nat_lt self.now.entry.order.rest.lots self.now.terms.quantity.lots) }
    {
        self.has_new_price() || self.terms.quantity > self.entry.order.rest
    }
}
