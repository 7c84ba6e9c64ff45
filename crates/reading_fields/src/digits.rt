// Five decimal digits in a field: four of four bits, lowest first, and the top one above them.
ghost use Rattle.std.specs.Prelude.{◌≡◌, ◌≤◌};
ghost use Rattle.reading_fields.specs.Digits.{lower, greatest_decimal, digit_above9, of_digits, to_digits};

// The greatest number of five digits, the top one of three bits.
pub const GREATEST: u32 = 79_999;

// Whether a digit is above 9.
pub fn digit_above_9(field: u32) -> bool
    ensures { result ≡ digit_above9 lower field }
{
    let tens = field / 16;
    let hundreds = tens / 16;
    let thousands = hundreds / 16;
    field % 16 > 9 || tens % 16 > 9 || hundreds % 16 > 9 || thousands % 16 > 9
}

// The number that the digits give, written out: a loop is no shorter, since the top digit is taken as it stands.
pub fn of_digits(field: u32) -> u32
    ensures { result ≡ of_digits lower field }
{
    let tens = field / 16;
    let hundreds = tens / 16;
    let thousands = hundreds / 16;
    let top = thousands / 16;
    field % 16 + 10 * (tens % 16 + 10 * (hundreds % 16 + 10 * (thousands % 16 + 10 * top)))
}

// The field of a number of five digits, written out as `of_digits` is.
pub fn to_digits(number: u32) -> u32
    requires { number ≤ greatest_decimal }
    ensures { result ≡ to_digits lower number }
{
    let tens = number / 10;
    let hundreds = tens / 10;
    let thousands = hundreds / 10;
    let top = thousands / 10;
    number % 10 + 16 * (tens % 10 + 16 * (hundreds % 10 + 16 * (thousands % 10 + 16 * top)))
}
