// A market is made: the first of every history.
ghost use Rattle.market.specs.Makes.{Makes};
ghost use Rattle.calls.specs.Begins.{Begins};

use listing::entry::Listed;
use market::market::Market;
use orders::row::OrderRow;
use pricing::model::PricingModel;
use terms::refusal::Refusal;

// On an empty tape, of whatever room, the empty history is its own.
pub fn make<M: PricingModel>(
    listing: &[Listed],
    day_limit: u32,
    model: M,
    table: &mut [OrderRow],
) -> Result<Market<M>, (Refusal, M)>
    ensures made { Makes listing.now day_limit model table.old result table.new }
    ensures begins { Begins M.PricingModel.tells result table.new }
{
    Market::new(listing, day_limit, model, table)
}
