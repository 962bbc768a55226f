// A tape over lent bytes.
#![tactic(auto)]

ghost use Rattle.std.specs.Prelude.{◌/◌, length};
ghost use Rattle.byte_tape.specs.Bytes.{record_bytes, record_in};

pub mod codec;

use crate::codec::{RECORD_BYTES, decode_at, encode};
use lent_tape::LentTape;
use lent_tape::places::Places;
use tape::row::TradeRow;
use terms::mark::Mark;

pub type ByteTape<'a> = LentTape<Bytes<'a>>;

// Where the four bytes of a record's mark begin.
const MARK_OFFSET: usize = 40;

// Bytes that are no whole record are of no use.
#[derive(Drop)]
pub struct Bytes<'a>(pub &'a mut [u8]);

impl Places for Bytes<'_> {
    ghost size = { λ bytes. length bytes.0.now / record_bytes };

    ghost at = { λ bytes place. record_in bytes.0.now place };

    fn size(&self) -> usize {
        self.0.len() / RECORD_BYTES
    }

    fn get(&self, place: usize) -> Option<TradeRow> {
        if place >= self.size() {
            return None;
        }
        Some(decode_at(self.0, RECORD_BYTES * place))
    }

    fn set(&mut self, place: usize, row: TradeRow) {
        if place < self.size() {
            let at = RECORD_BYTES * place;
            self.0[at..at + RECORD_BYTES].copy_from_slice(&encode(row));
        }
    }

    fn mark(&mut self, place: usize, mark: Mark) {
        if place < self.size() {
            let at = RECORD_BYTES * place + MARK_OFFSET;
            self.0[at..at + 4].copy_from_slice(&u32::from(mark).to_be_bytes());
        }
    }
}
