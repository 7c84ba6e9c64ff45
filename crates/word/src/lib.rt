// The ARINC 429 word: what stands in its 32 bits, its parity, and the null time between words.
// ARINC bit 1 is D0, bit 32 is D31. Every function takes any number.
#![tactic(auto)]

pub mod fields;
mod labels;

ghost use Rattle.std.specs.Prelude.{◌≡◌};
ghost use Rattle.word.specs.Word.{label, sdi, index, ones, in_error, reversed};
ghost use Rattle.word.specs.Parity.{odd_parity, as_sent, error_mark};
ghost use Rattle.word.specs.Gap.{clamped};

use labels::REVERSED;

// A byte with its eight bits in the other order.
fn reversed_byte(byte: u8) -> u8
    ensures { result ≡ reversed byte }
{
    REVERSED[usize::from(byte)]
}

// The label, bits 1 to 8: written in octal it is the number that the documents list.
pub fn label(word: u32) -> u8
    ensures { result ≡ label word }
{
    reversed_byte((word % 256) as u8)
}

// The source/destination identifier, bits 9 and 10.
pub fn sdi(word: u32) -> u32
    ensures { result ≡ sdi word }
{
    word / 256 % 4
}

// The SDI/Label index, which picks a mailbox and a place in the match set.
pub fn index(word: u32) -> u32
    ensures { result ≡ index word }
{
    word % 1024
}

// How many of the 32 bits are ones.
pub fn count_of_ones(word: u32) -> u32
    ensures { result ≡ ones word }
{
    word.count_ones()
}

// Whether odd parity finds the word in error.
pub fn is_in_error(word: u32) -> bool
    ensures { result ≡ in_error word }
{
    count_of_ones(word) % 2 == 0
}

// The word with D31 set or cleared so that the count of ones is odd.
#[tactic(auto, unfolding(crate::specs::Parity::odd_parity))]
pub fn with_odd_parity(word: u32) -> u32
    ensures { result ≡ odd_parity word }
{
    let low = word % 0x8000_0000;
    if count_of_ones(low) % 2 == 1 {
        return low;
    }
    low + 0x8000_0000
}

// The word as it goes out, by the channel's parity setting, a word of the lent memory: 0 is off, any other number on.
#[tactic(auto, unfolding(crate::specs::Parity::as_sent))]
pub fn as_sent(parity: u32, word: u32) -> u32
    ensures { result ≡ as_sent parity word }
{
    if parity == 0 {
        return word;
    }
    with_odd_parity(word)
}

// The parity error of a received word, 1 or 0 as a status has it in D0, by the same setting.
#[tactic(auto, unfolding(crate::specs::Parity::error_mark))]
pub fn error_mark(parity: u32, word: u32) -> u32
    ensures { result ≡ error_mark parity word }
{
    u32::from(parity != 0 && is_in_error(word))
}

// A null time between words, in bit times.
#[derive(Clone, Copy)]
pub struct Gap {
    pub time: u32,
}

impl Gap {
    // The least gap that ARINC 429 allows between two words.
    pub const LEAST: u32 = 4;

    // The greatest transmit rate.
    pub const GREATEST: u32 = 1_048_575;

    // The gap that a number from the message RAM stands for.
    #[tactic(auto, unfolding(crate::specs::Gap::clamped))]
    pub fn clamp(value: u32) -> Gap
        ensures { result.time ≡ clamped value }
    {
        Gap {
            time: value.clamp(Gap::LEAST, Gap::GREATEST),
        }
    }
}
