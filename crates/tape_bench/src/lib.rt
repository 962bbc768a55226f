// What bench/ times: records put on a tape over lent bytes, and read again.
#![tactic(auto)]

use byte_tape::{ByteTape, Bytes};
use tape::Tape;
use tape::row::TradeRow;
use tape::trade::Trade;

// A record of its twelve numbers.
fn row(numbers: &[u32; 12]) -> TradeRow {
    let [
        product,
        time,
        price,
        quantity,
        buy,
        sell,
        buyer,
        seller,
        established,
        no_bust,
        mark,
        day,
    ] = *numbers;
    TradeRow {
        product,
        time,
        price,
        quantity,
        buy,
        sell,
        buyer,
        seller,
        established,
        no_bust,
        mark,
        day,
    }
}

// A digest of what was read; 0 where the tape does not take every record.
#[unsafe(no_mangle)]
pub extern "C" fn tape_bench_run(bytes: &mut [u8], numbers: &[u32]) -> u64 {
    let mut tape = ByteTape::new(Bytes(bytes));
    let (rows, _) = numbers.as_chunks::<12>();
    for numbers in rows {
        let Ok(trade) = Trade::try_from(row(numbers)) else {
            return 0;
        };
        if tape.add(trade).is_err() {
            return 0;
        }
    }
    let mut digest: u64 = 0;
    for number in 1..=tape.count() {
        let Ok(trade) = tape.read(number) else {
            return 0;
        };
        digest = digest
            .wrapping_mul(31)
            .wrapping_add(u64::from(trade.price.ticks()))
            .wrapping_add(u64::from(trade.quantity.lots()))
            .wrapping_add(u64::from(trade.seller.number()));
    }
    digest
}
