// What an order that arrived leaves of the market.
ghost use Rattle.std.specs.Prelude.{◌≡◌, ◌||◌, if◌then◌else◌, nat_lt};
ghost use Rattle.listing.specs.Changes.{contents};
ghost use Rattle.rules.specs.Held.{product_in};
ghost use Rattle.rules.specs.Arrivals.{halt_by, halts_market, halting};
ghost use Rattle.rules.specs.Worlds.{state_of};
ghost use Rattle.terms.specs.declared.halt.Halt.TheVariants.{Nothing as no_halt};

use listing::kind::Kind;
use market::market::Market;
use terms::halt::Halt;

// A future halts the whole market, an option only itself.
fn halt_by(kind: Kind, halted: bool) -> Halt
    ensures { result ≡ halt_by kind halted }
{
    match kind {
        _ if !halted => Halt::Nothing,
        Kind::Future => Halt::WholeMarket,
        Kind::Option { .. } => Halt::OneOption,
    }
}

// Its time, the stamp that it took, and the halt that it caused in its product; one that is not listed halts nothing.
pub fn note_arrival<M>(market: &mut Market<M>, time: u32, stamp: u32, n: u32, halted: bool) -> Halt
    ensures halt { result ≡ (if nat_lt n market.old.products.count then halt_by (product_in (contents market.old.products) n).listed.kind halted else no_halt) }
    ensures state { market.new.state ≡ state_of market.old.state.phase market.old.state.day time stamp (halts_market result || market.old.state.halted) }
    ensures products { contents market.new.products ≡ halting result n (contents market.old.products) }
    ensures model { market.new.model ≡ market.old.model }
{
    let halt = market.products.product(n).map_or(
        Halt::Nothing,
        |product| halt_by(product.listed.kind, halted),
    );
    match halt {
        Halt::Nothing => {}
        Halt::OneOption => market.products.halt(n).unwrap(),
        Halt::WholeMarket => market.state.halted = true,
    }
    market.state.time = time;
    market.state.stamp = stamp;
    halt
}
