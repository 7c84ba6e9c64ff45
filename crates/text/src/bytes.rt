// What a byte of a text stands for.
ghost use Rattle.std.specs.Prelude.{◌≡◌, ◌<◌, MatchOption};
ghost use Rattle.text.specs.Bytes.{is_blank, digit_of};

// Whether a byte is a blank, a tab or a carriage return.
#[tactic(auto, using(word::proofs::Branches::branches), unfolding(crate::specs::Bytes::is_blank))]
pub fn is_blank(byte: u8) -> bool
    ensures { result ≡ is_blank byte }
{
    matches!(byte, b' ' | b'\t' | b'\r')
}

// The value of a digit, a letter in either case.
#[tactic(auto, using(word::proofs::Branches::branches), unfolding(crate::specs::Bytes::digit_of))]
pub fn digit(byte: u8) -> Option<u32>
    ensures { MatchOption result (digit_of byte ≡ 16) (λ digit. (digit ≡ digit_of byte) × (digit < 16)) }
{
    match byte {
        b'0'..=b'9' => Some(u32::from(byte - b'0')),
        b'A'..=b'F' => Some(u32::from(byte - b'A') + 10),
        b'a'..=b'f' => Some(u32::from(byte - b'a') + 10),
        _ => None,
    }
}
