// One bit of a word: its weight, and the word with another value in its place.
#![tactic(auto)]

ghost use Rattle.std.specs.Prelude.{◌≡◌, ◌<◌, ◌≤◌, ◌^◌};
ghost use Rattle.bits.specs.Bits.{with_bit};

// The weight of bit `place` in a word.
pub fn weight(place: u32) -> u32
    requires { place < 32 }
    ensures { result ≡ 2 ^ place }
{
    1 << place
}

// A word with `value` in the place of one bit.
pub fn with_bit(word: u32, place: u32, value: u32) -> u32
    requires { (place < 32) × (value ≤ 1) }
    ensures { result ≡ with_bit word place value }
{
    let p = weight(place);
    (word / p / 2 * 2 + value) * p + word % p
}
