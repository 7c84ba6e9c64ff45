// A decimal number of 32 bits, a byte after the other. Where `text::token` takes a greater number as the greatest, here it is no number.
ghost use Rattle.std.specs.Prelude.{◌≡◌};
ghost use Rattle.card_lines.specs.Decimal.{grown, decimal_byte};

use text::bytes;

// The greatest digit.
const NINE: u32 = 9;

// The digits so far; `wrong` for good where they are no number of 32 bits. They are two fields, since the functions of a line take any values of them.
#[derive(Clone, Copy)]
pub struct Decimal {
    pub wrong: bool,
    pub value: u32,
}

// No digit yet.
pub fn none() -> Decimal
    ensures { result ≡ Rattle.card_lines.specs.Decimal.none }
{
    Decimal {
        wrong: false,
        value: 0,
    }
}

fn spoiled() -> Decimal
    ensures { result ≡ Rattle.card_lines.specs.Decimal.spoiled }
{
    Decimal {
        wrong: true,
        value: 0,
    }
}

// The number with one more digit, if the byte is one and 32 bits hold it.
fn grown(number: u32, byte: u8) -> Option<u32>
    ensures { result ≡ grown number byte }
{
    let digit = bytes::digit(byte)?;
    if NINE < digit {
        return None;
    }
    number.checked_mul(10)?.checked_add(digit)
}

// The digits with one more byte.
pub fn decimal_byte(at: Decimal, byte: u8) -> Decimal
    ensures { result ≡ decimal_byte at byte }
{
    if at.wrong {
        return spoiled();
    }
    match grown(at.value, byte) {
        Some(value) => Decimal { value, ..at },
        None => spoiled(),
    }
}
