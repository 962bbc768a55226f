// Decimal numbers of 32 bits.
ghost use Rattle.std.specs.Prelude.{◌≡◌, ◌^◌, ◌<◌, true};
ghost use Rattle.std.specs.Char.{is_ascii_digit};
ghost use Rattle.std.specs.Option.{SomeIff};
ghost use Rattle.reading.specs.Numerals.{digit_more, numeral};

// A number with one digit more at its end; none for a byte that is no digit, and none past 32 bits.
fn then_digit(value: u64, byte: u8) -> Option<u64>
    requires { value < 2 ^ 32 }
    ensures { SomeIff result ((is_ascii_digit byte ≡ true) × (digit_more value byte < 2 ^ 32)) (digit_more value byte) }
{
    if !byte.is_ascii_digit() {
        return None;
    }
    let value = value * 10 + u64::from(byte - b'0');
    (value <= u64::from(u32::MAX)).then_some(value)
}

// The number that a word of digits writes; none for any other word, and none past 32 bits.
pub fn number(word: &[u8]) -> Option<u32>
    ensures { result ≡ numeral word.now }
{
    if word.is_empty() {
        return None;
    }
    // wider than the number, so that one comparison a digit tells whether it still fits
    let mut value = 0;
    for byte in word {
        value = then_digit(value, *byte)?;
    }
    Some(value as u32)
}
