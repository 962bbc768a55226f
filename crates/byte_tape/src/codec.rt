// A record as bytes: twelve numbers of four bytes, most significant first.
ghost use Rattle.std.specs.Prelude.{◌≡◌, ◌+◌, ◌*◌, ◌^◌, ◌<◌, ◌≤◌, length, All};
ghost use Rattle.byte_tape.specs.Bytes.{record_bytes, numbers as numbers_of, encoded, number_at, decoded_at, decoded, ComesBack};

use tape::row::TradeRow;

pub const RECORD_BYTES: usize = 48;

fn numbers(row: TradeRow) -> [u32; 12]
    ensures value { result ≡ numbers_of row }
    ensures fit { All (λ n. n < 2 ^ 32) result }
{
    [
        row.product,
        row.time,
        row.price,
        row.quantity,
        row.buy,
        row.sell,
        row.buyer,
        row.seller,
        row.established,
        row.no_bust,
        row.mark,
        row.day,
    ]
}

pub fn encode(row: TradeRow) -> [u8; RECORD_BYTES]
    ensures value { result ≡ encoded row }
    ensures back { decoded result ≡ row }
    ensures law { ComesBack }
{
    let mut bytes = [0; RECORD_BYTES];
    for (i, number) in numbers(row).iter().enumerate() {
        bytes[4 * i..4 * i + 4].copy_from_slice(&number.to_be_bytes());
    }
    bytes
}

pub fn decode(bytes: &[u8; RECORD_BYTES]) -> TradeRow
    ensures { result ≡ decoded bytes.now }
{
    decode_at(bytes, 0)
}

// The record whose bytes begin at a place.
pub(crate) fn decode_at(bytes: &[u8], at: usize) -> TradeRow
    requires { at + record_bytes ≤ length bytes.now }
    ensures { result ≡ decoded_at bytes.now at }
{
    TradeRow {
        product: number_at(bytes, at),
        time: number_at(bytes, at + 4),
        price: number_at(bytes, at + 8),
        quantity: number_at(bytes, at + 12),
        buy: number_at(bytes, at + 16),
        sell: number_at(bytes, at + 20),
        buyer: number_at(bytes, at + 24),
        seller: number_at(bytes, at + 28),
        established: number_at(bytes, at + 32),
        no_bust: number_at(bytes, at + 36),
        mark: number_at(bytes, at + 40),
        day: number_at(bytes, at + 44),
    }
}

fn number_at(bytes: &[u8], at: usize) -> u32
    requires { at + 4 ≤ length bytes.now }
    ensures { result ≡ number_at bytes.now at }
{
    u32::from_be_bytes([bytes[at], bytes[at + 1], bytes[at + 2], bytes[at + 3]])
}
