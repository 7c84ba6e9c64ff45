// Where a reading stands in a word: the field in bits 11 to 29, the sign in bits 30 and 31.
ghost use Rattle.std.specs.Prelude.{◌≡◌, ◌<◌};
ghost use Rattle.reading_fields.specs.Bits.{field, sign, with_field, with_sign, twos_complement, full};

use crate::signs::joined;

// The fields, and those of them that are numbers from 0 on.
pub const FULL: u32 = 0x8_0000;

pub const HALF: u32 = 0x4_0000;

// The two signs, as they stand in bits 30 and 31: a number and no enum, since the clause of `sign` gives all four and `with_sign` puts any.
pub const PLUS: u32 = 0;

pub const MINUS: u32 = 3;

// Where the field, the sign and the bits behind them begin.
const FIELD: u32 = 0x400;

const SIGN: u32 = 0x2000_0000;

const REST: u32 = 0x8000_0000;

pub fn field(word: u32) -> u32
    ensures { result ≡ field word }
{
    word / FIELD % FULL
}

pub fn sign(word: u32) -> u32
    ensures { result ≡ sign word }
{
    word / SIGN % 4
}

// The word with another field.
pub fn with_field(word: u32, field: u32) -> u32
    requires { field < full }
    ensures { result ≡ with_field word field }
{
    word % FIELD + field * FIELD + word / SIGN * SIGN
}

// The word with another sign.
pub fn with_sign(word: u32, sign: u32) -> u32
    requires { sign < 4 }
    ensures { result ≡ with_sign word sign }
{
    word % SIGN + sign * SIGN + word / REST * REST
}

// The number of a field in two's complement.
pub fn twos_complement(field: u32) -> i32
    requires { field < full }
    ensures { result ≡ twos_complement field }
{
    if field < HALF {
        field as i32
    } else {
        joined(true, FULL - field)
    }
}
