// Whole numbers with a sign, as a sign and a size.
ghost use Rattle.std.specs.Prelude.{◌≡◌, ◌<◌, ◌^◌};
ghost use Rattle.std.specs.Int.Signed.{mag};
ghost use Rattle.reading_fields.specs.Signs.{signed, minus};

// Whether a number is below zero, of any size that a machine's number with a sign has.
pub fn is_minus(value: i64) -> bool
    ensures { result ≡ minus value }
{
    value < 0
}

// What is left of a number without its sign: n for n and for -(n + 1). std has no `From` to numbers without a sign.
pub fn magnitude(value: i32) -> u32
    ensures { result ≡ mag value }
{
    if value >= 0 {
        value as u32
    } else {
        !value as u32
    }
}

// The number of a sign and a size.
pub fn joined(minus: bool, size: u32) -> i32
    requires { size < 2 ^ 31 }
    ensures { result ≡ signed minus size }
{
    let number = size as i32;
    if minus { -number } else { number }
}
