// What bench/ times: a buy that sweeps the sells of a lent table.
#![tactic(auto)]

use book::arriving::Arriving;
use book::incoming::Incoming;
use book::sweep::sweep;
use byte_tape::{ByteTape, Bytes};
use limits::range::Range;
use orders::row::OrderRow;
use orders::side::Sells;
use terms::duration::Duration;
use terms::field::Field;
use terms::price::Price;
use terms::side::Side;
use terms::stamp::Stamp;

fn incoming(limit: u32, lots: u32) -> Result<Incoming, Field> {
    let limit = Price::try_from(limit)?;
    Ok(Incoming {
        side: Side::Buy,
        product: 0,
        participant: 7.try_into()?,
        limit,
        quantity: lots.try_into()?,
        duration: Duration::UntilCancelled,
        time: 0,
        day: 0,
        established: limit,
        no_bust: 0,
    })
}

// The first order of its market.
fn arriving(limit: u32, lots: u32) -> Option<Arriving> {
    Some(Arriving {
        number: Stamp::after(0)?,
        order: incoming(limit, lots).ok()?,
    })
}

// How much was traded, and in how many trades; 0 where the order or the tape does not serve.
#[unsafe(no_mangle)]
pub extern "C" fn book_bench_run(
    table: &mut [OrderRow],
    bytes: &mut [u8],
    limit: u32,
    lots: u32,
) -> u64 {
    let Some(arriving) = arriving(limit, lots) else {
        return 0;
    };
    let mut tape = ByteTape::new(Bytes(bytes));
    let range = Range::around(Price::ZERO, Price::HIGHEST);
    sweep::<Sells, ByteTape>(table, &mut tape, arriving, range, false).map_or(0, |swept| {
        u64::from(swept.traded)
            .wrapping_mul(1_000_000)
            .wrapping_add(u64::from(swept.trades))
    })
}
