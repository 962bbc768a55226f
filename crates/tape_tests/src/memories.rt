// Memories of every awkward size: what they take, and what they say of a record that they lack.
use crate::sample::{EXAMPLE, trade};
use byte_tape::{ByteTape, Bytes};
use lent_tape::no_record::NoRecord;
use record_tape::{RecordTape, Records};
use std::process::Abort;
use std::test::Fail;
use tape::Tape;
use tape::fault::AddFault;
use tape::row::TradeRow;
use terms::mark::Mark;

// Fills the tape, and says how many records it took.
fn filled<T: Tape>(rt: &impl Abort, tape: &mut T) -> Result<u32, Fail> {
    let trade = trade(EXAMPLE)?;
    let room = tape.room();
    assert!(rt; room <= 2);
    for _ in 0..room {
        tape.add(trade)?;
    }
    assert_eq!(rt; tape.add(trade), Err(AddFault::Full));
    assert_eq!(rt; tape.room(), 0);
    assert_eq!(rt; tape.count(), room);
    Ok(room)
}

fn bytes_take(rt: &impl Abort, bytes: &mut [u8]) -> Result<u32, Fail> {
    let mut tape = ByteTape::new(Bytes(bytes));
    filled(rt, &mut tape)
}

fn records_take(rt: &impl Abort, rows: &mut [TradeRow]) -> Result<u32, Fail> {
    let mut tape = RecordTape::new(Records(rows));
    filled(rt, &mut tape)
}

#[test]
fn sizes(rt: HostRuntime) -> Result<(), Fail> {
    assert_eq!(rt; records_take(&rt, &mut [TradeRow::default(); 0])?, 0);
    assert_eq!(rt; records_take(&rt, &mut [TradeRow::default(); 1])?, 1);
    assert_eq!(rt; records_take(&rt, &mut [TradeRow::default(); 2])?, 2);
    assert_eq!(rt; bytes_take(&rt, &mut [0; 0])?, 0);
    assert_eq!(rt; bytes_take(&rt, &mut [0; 47])?, 0);
    assert_eq!(rt; bytes_take(&rt, &mut [0; 48])?, 1);
    assert_eq!(rt; bytes_take(&rt, &mut [0; 49])?, 1);
    assert_eq!(rt; bytes_take(&rt, &mut [0; 96])?, 2);
    Ok(())
}

// Of one record out of two the others are missing, and the one stays as it was.
fn missing<T: Tape<Fault = NoRecord>>(rt: &impl Abort, tape: &mut T) -> Result<(), Fail> {
    tape.add(trade(EXAMPLE)?)?;
    assert_eq!(rt; TradeRow::from(tape.read(1)?), EXAMPLE);
    assert!(rt; tape.read(0).is_err());
    assert!(rt; tape.read(2).is_err());
    assert_eq!(rt;
        tape.mark(0, Mark::Upheld),
        Err(NoRecord {
            number: 0,
            count: 1,
        })
    );
    assert_eq!(rt;
        tape.mark(2, Mark::Upheld),
        Err(NoRecord {
            number: 2,
            count: 1,
        })
    );
    assert_eq!(rt; TradeRow::from(tape.read(1)?), EXAMPLE);
    Ok(())
}

#[test]
fn missing_records(rt: HostRuntime) -> Result<(), Fail> {
    let mut rows = [TradeRow::default(); 2];
    missing(&rt, &mut RecordTape::new(Records(&mut rows)))
}

#[test]
fn missing_bytes(rt: HostRuntime) -> Result<(), Fail> {
    let mut bytes = [0; 96];
    missing(&rt, &mut ByteTape::new(Bytes(&mut bytes)))
}

// A time may stay, and not fall.
fn times<T: Tape>(rt: &impl Abort, tape: &mut T) -> Result<(), Fail> {
    tape.add(trade(EXAMPLE)?)?;
    tape.add(trade(EXAMPLE)?)?;
    assert_eq!(rt;
        tape.add(trade(TradeRow {
            time: 99,
            ..EXAMPLE
        })?,),
        Err(AddFault::TimeFell(100))
    );
    assert_eq!(rt; tape.count(), 2);
    Ok(())
}

#[test]
fn times_on_both(rt: HostRuntime) -> Result<(), Fail> {
    let mut rows = [TradeRow::default(); 3];
    times(&rt, &mut RecordTape::new(Records(&mut rows)))?;
    let mut bytes = [0; 144];
    times(&rt, &mut ByteTape::new(Bytes(&mut bytes)))
}
