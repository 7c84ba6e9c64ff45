// A number of a list, a byte after the other.
ghost use Rattle.std.specs.Prelude.{◌≡◌};
ghost use Rattle.text.specs.Token.{capped, token_byte, token_number};

use crate::bytes;

// What stands for a token that is no 32-bit number.
pub const GREATEST: u32 = u32::MAX;

// A token as far as it was read: whether it has a byte, whether it is no number for good, and the number so far. They are three fields, since the
// functions here take any of their values.
#[derive(Clone, Copy)]
pub struct Token {
    pub begun: bool,
    pub wrong: bool,
    pub number: u32,
}

// No byte of a token yet.
pub fn none() -> Token
    ensures { result ≡ Rattle.text.specs.Token.none }
{
    Token {
        begun: false,
        wrong: false,
        number: 0,
    }
}

fn spoiled() -> Token
    ensures { result ≡ Rattle.text.specs.Token.spoiled }
{
    Token {
        begun: true,
        wrong: true,
        number: 0,
    }
}

fn capped(number: u64) -> u32
    ensures { result ≡ capped number }
{
    u32::try_from(number).unwrap_or(GREATEST)
}

// One more byte of a token in base 8, 10 or 16; a byte that is no digit counts as 16, which is no digit of a base up to 16.
pub fn token_byte(base: u32, token: Token, byte: u8) -> Token
    ensures { result ≡ token_byte base token byte }
{
    if token.wrong {
        return spoiled();
    }
    let digit = bytes::digit(byte).unwrap_or(16);
    if digit < base {
        return Token {
            begun: true,
            number: capped(u64::from(token.number) * u64::from(base) + u64::from(digit)),
            ..token
        };
    }
    spoiled()
}

// The number of a token, 0 where it has no byte.
pub fn token_number(token: Token) -> u32
    ensures { result ≡ token_number token }
{
    if token.wrong {
        return GREATEST;
    }
    token.number
}
