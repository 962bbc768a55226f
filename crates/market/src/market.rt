// A market is its state, its products, and the pricing model beside them.
use established::moment::Moment;
use limits::range::Range;
use listing::entry::Listed;
use listing::products::Products;
use orders::questions::top;
use orders::row::OrderRow;
use pricing::model::PricingModel;
use rules::state::State;
use rules::turns::hold_time;
use tape::Tape;
use tape::reading::trade_at;
use tape::trade::Trade;
use terms::price::Price;
use terms::refusal::Refusal;

#[derive(Drop)]
pub struct Market<M> {
    pub state: State,
    pub products: Products,
    pub model: M,
}

impl<M: PricingModel> Market<M> {
    ghost use Rattle.std.specs.Prelude.{◌≡◌, []};
    ghost use Rattle.tape.specs.Tapes.{TradeAt};
    ghost use Rattle.market.specs.Makes.{Makes};
    ghost use Rattle.market.specs.Markets.{world_of, bare};
    ghost use Rattle.market.specs.Questions.{top_in, range_asked, established_asked};

    // A market that lists these products, on an emptied table; a refusal hands the model back.
    pub fn new(
        listing: &[Listed],
        day_limit: u32,
        model: M,
        table: &mut [OrderRow],
    ) -> Result<Market<M>, (Refusal, M)>
        ensures { Makes listing.now day_limit model table.old result table.new }
    {
        // a closure for `map_err` would take the model
        let products = match Products::new(listing, day_limit) {
            Ok(products) => products,
            Err(fault) => return Err((Refusal::Malformed(fault), model)),
        };
        table.fill(OrderRow::FREE);
        Ok(Market {
            state: State::default(),
            products,
            model,
        })
    }

    pub fn state(&self) -> State
        ensures { result ≡ self.now.state }
    {
        self.state
    }

    // How many products are listed.
    pub fn products(&self) -> u32
        ensures { result ≡ self.now.products.count }
    {
        self.products.count()
    }

    // The best buy and the best sell of a product.
    pub fn top(
        &self,
        table: &[OrderRow],
        product: u32,
    ) -> Result<(Option<Price>, Option<Price>), Refusal>
        ensures { result ≡ top_in (bare self.now.state self.now.products table.now) product }
    {
        let _ = self.products.product(product)?;
        Ok(top(table, product))
    }

    // The lowest and the highest price at which a product may trade.
    pub fn range(&self, product: u32) -> Result<Range, Refusal>
        ensures { result ≡ range_asked (bare self.now.state self.now.products []) product }
    {
        self.products.range(product)
    }

    // One trade, by its number on the tape.
    pub fn trade<T: Tape>(&self, tape: &T, number: u32) -> Result<Trade, Refusal>
        ensures { TradeAt (T.Tape.records tape.now) number result }
    {
        trade_at(tape, number)
    }

    // The established market price of a product at a time.
    #[tactic(auto, using(rules::proofs::Prices::same_price, crate::proofs::Ways::asked_next))]
    pub fn established<T: Tape>(
        &self,
        table: &[OrderRow],
        tape: &T,
        time: u32,
        product: u32,
    ) -> Result<Price, Refusal>
        ensures { result ≡ established_asked (world_of M.PricingModel.tells T.Tape.records T.Tape.space self.now table.now tape.now) time product }
    {
        hold_time(self.state, time)?;
        let moment = Moment {
            products: &self.products,
            table,
            tape,
            day: self.state.day,
            time,
        };
        moment.established(&self.model, product)
    }
}
