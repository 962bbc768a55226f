// One record, byte by byte.
use crate::sample::{EXAMPLE, trade};
use byte_tape::codec::{decode, encode};
use byte_tape::{ByteTape, Bytes};
use std::test::Fail;
use tape::Tape;
use terms::mark::Mark;

const BYTES: [u8; 48] = [
    0, 0, 0, 0, 0, 0, 0, 100, 0, 0, 25, 31, 0, 0, 0, 50, 0, 0, 0, 5, 0, 0, 0, 2, 0, 0, 0, 7, 0, 0,
    0, 9, 0, 0, 25, 31, 0, 0, 0, 20, 0, 0, 0, 0, 0, 0, 0, 1,
];

#[test]
fn encoded_and_back(rt: HostRuntime) {
    assert_eq!(rt; encode(EXAMPLE), BYTES);
    assert_eq!(rt; decode(&BYTES), EXAMPLE);
}

// The second of two records, and its mark, which changes one byte and no other.
#[test]
fn in_memory(rt: HostRuntime) -> Result<(), Fail> {
    let mut bytes = [255; 97];
    {
        let mut tape = ByteTape::new(Bytes(&mut bytes));
        tape.add(trade(EXAMPLE)?)?;
        tape.add(trade(EXAMPLE)?)?;
        tape.mark(2, Mark::Cancelled)?;
    }
    let mut second = BYTES;
    second[43] = 3;
    let (records, rest) = bytes.as_chunks::<48>();
    assert_eq!(rt; records, [BYTES, second].as_slice());
    assert_eq!(rt; rest, [255].as_slice());
    Ok(())
}
