// A whole number put into a word, by the list.
ghost use Rattle.std.specs.Prelude.{◌≡◌};
ghost use Rattle.readings.specs.Encoding.{binary_encoded, decimal_encoded, encoded_by, encoded};

use crate::listed::listed;
use crate::refusals::Refusal;
use label_list::kinds::Kind;
use reading_fields::{bits, digits, signs};

// A number in two's complement.
pub fn binary_encoded(word: u32, value: i32) -> Result<u32, Refusal>
    ensures { result ≡ binary_encoded word value }
{
    let magnitude = signs::magnitude(value);
    if magnitude >= bits::HALF {
        return Err(Refusal::OutsideRange);
    }
    if signs::is_minus(i64::from(value)) {
        return Ok(bits::with_field(word, bits::FULL - 1 - magnitude));
    }
    Ok(bits::with_field(word, magnitude))
}

// A number of five digits, with its sign.
pub fn decimal_encoded(word: u32, value: i32) -> Result<u32, Refusal>
    ensures { result ≡ decimal_encoded word value }
{
    let size = value.unsigned_abs();
    if size > digits::GREATEST {
        return Err(Refusal::OutsideRange);
    }
    let filled = bits::with_field(word, digits::to_digits(size));
    if signs::is_minus(i64::from(value)) {
        return Ok(bits::with_sign(filled, bits::MINUS));
    }
    Ok(bits::with_sign(filled, bits::PLUS))
}

// The word with the number in it, by the kind of its entry.
pub fn encoded_by(kind: u32, word: u32, value: i32) -> Result<u32, Refusal>
    ensures { result ≡ encoded_by kind word value }
{
    match Kind::try_from(kind)? {
        Kind::Binary => binary_encoded(word, value),
        Kind::Decimal => decimal_encoded(word, value),
        Kind::BitField => Err(Refusal::NoEntry),
    }
}

// The word with the number in it, by the list.
pub fn encode(list: &[u32], word: u32, value: i32) -> Result<u32, Refusal>
    ensures { result ≡ encoded list.now word value }
{
    encoded_by(listed(list, word)?.kind, word, value)
}
