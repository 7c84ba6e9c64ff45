// The exact decimal value of a number in units: a count of 262,144ths, and its digits one after the other.
ghost use Rattle.std.specs.Prelude.{◌≡◌, ◌+◌, T};
ghost use Rattle.std.specs.Float.Ieee as Ieee;
ghost use Rattle.std.specs.Float.{binary64};
ghost use Rattle.readings.specs.Units.{scaled, count_of, first_digit, next_rest};

// Every number in units is a whole count of these.
pub const THS: u32 = 262_144;

// The digits behind the point that such a part has at most.
pub const DIGITS: usize = 18;

// A digit behind the point, and the part that is left.
#[derive(Drop)]
pub struct Digit {
    pub digit: u8,
    pub rest: u32,
}

// The count of 262,144ths in a number in units.
pub fn count(units: f64) -> i64
    requires { T (Ieee.in_signed binary64 63 (scaled units)) }
    ensures { result ≡ count_of units }
{
    (units * f64::from(THS)) as i64
}

// The first digit behind the point of a part below one.
pub fn next(rest: u32) -> Digit
    ensures digit { result.digit ≡ first_digit rest }
    ensures rest { result.rest ≡ next_rest rest }
{
    let tenfold = rest % THS * 10;
    Digit {
        digit: (tenfold / THS) as u8,
        rest: tenfold % THS,
    }
}
