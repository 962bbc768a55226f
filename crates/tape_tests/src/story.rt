// A day of trades, told by any tape.
use crate::sample::trade_of;
use byte_tape::{ByteTape, Bytes};
use record_tape::{RecordTape, Records};
use std::process::Abort;
use std::test::Fail;
use tape::Tape;
use tape::day::last_of_day;
use tape::last::LastTrade;
use tape::reading::{last_time, trade_at};
use tape::row::TradeRow;
use tape::window::Sums;
use terms::mark::Mark;
use terms::refusal::Refusal;

#[derive(Clone, Copy, PartialEq, Eq, Debug)]
struct Told {
    time: u32,
    sums: Sums,
    last: Option<(u32, u32)>,
    none: Option<(u32, u32)>,
    second: TradeRow,
}

// Each tape's own fault becomes a refusal on its way up.
fn consider<T: Tape>(tape: &mut T, n: u32) -> Result<(), Refusal> {
    tape.mark(n, Mark::Considered).map_err(Into::into)
}

// The number asked for and the count, as the refusal of a missing trade tells them.
fn missing(refusal: Refusal) -> Option<(u32, u32)> {
    match refusal {
        Refusal::Missing(fault) => Some((fault.number, fault.count)),
        _ => None,
    }
}

fn worth(last: Option<LastTrade>) -> Option<(u32, u32)> {
    last.map(|trade| (trade.number, trade.price.ticks()))
}

fn lacks<T: Tape>(rt: &impl Abort, tape: &mut T) -> Result<(), Fail> {
    let Err(refusal) = consider(tape, 0) else {
        return Err(Fail::new("record 0 was marked"));
    };
    assert_eq!(rt; missing(refusal), Some((0, 4)));
    let Err(refusal) = trade_at(tape, 5) else {
        return Err(Fail::new("record 5 was read"));
    };
    assert_eq!(rt; missing(refusal), Some((5, 4)));
    Ok(())
}

fn tell<T: Tape>(rt: &impl Abort, tape: &mut T) -> Result<Told, Fail> {
    assert_eq!(rt; last_time(tape), 0);
    tape.add(trade_of(3, 39, 100, 7)?)?;
    tape.add(trade_of(3, 40, 200, 5)?)?;
    tape.add(trade_of(4, 99, 300, 3)?)?;
    tape.add(trade_of(3, 100, 400, 1)?)?;
    assert!(rt; consider(tape, 2).is_ok());
    lacks(rt, tape)?;
    let Ok(second) = trade_at(tape, 2) else {
        return Err(Fail::new("no second trade"));
    };
    Ok(Told {
        time: last_time(tape),
        sums: Sums::before(tape, 3, 100),
        last: worth(last_of_day(tape, 4, 1)),
        none: worth(last_of_day(tape, 4, 2)),
        second: second.into(),
    })
}

#[test]
fn both_tell_the_same(rt: HostRuntime) -> Result<(), Fail> {
    let mut rows = [TradeRow::default(); 4];
    let mut bytes = [0; 192];
    let a = tell(&rt, &mut RecordTape::new(Records(&mut rows)))?;
    let b = tell(&rt, &mut ByteTape::new(Bytes(&mut bytes)))?;
    assert_eq!(rt; a, b);
    assert_eq!(rt; a.time, 100);
    assert_eq!(rt;
        a.sums,
        Sums {
            turnover: 1400,
            volume: 6,
        }
    );
    assert_eq!(rt; a.last, Some((3, 300)));
    assert_eq!(rt; a.none, None);
    assert_eq!(rt; a.second.mark, 1);
    Ok(())
}
