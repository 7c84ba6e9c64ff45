// The least and the greatest value of each stored number: the same table serves soundness and the settings' arguments.
ghost use Rattle.std.specs.Prelude.{◌≡◌, ◌<◌};
ghost use Rattle.block.specs.Layout.{Whole, ranged};
ghost use Rattle.block.specs.Ranges.{in_range, sound};

use crate::layout::{RANGED, RECEIVE_LEVEL, RECEIVE_SIZE, SETTINGS};
use ring::{LAST_SLOT, SLOTS};

// The greatest mask: all seven conditions.
pub const ALL_CONDITIONS: u32 = 127;

const LEAST: [u32; RANGED] = [
    0, // receiver
    0, // transmitter
    0, // parity
    0, // match
    0, // stamps
    0, // receive mode
    0, // FIFO kind
    0, // transmit mode
    1, // receive FIFO size
    0, // almost full threshold
    0, // almost empty threshold
    word::Gap::LEAST, // transmit rate
    0, // receive level
    0, // receive position
    0, // transmit level
    0, // transmit position
    0, // transmitter state
    0, // command address
    0, // async mark
    0, // latch mask
    0, // enable mask
    0, // level mask
    0, // message mark
];

const GREATEST: [u32; RANGED] = [
    1, // receiver
    1, // transmitter
    1, // parity
    1, // match
    1, // stamps
    1, // receive mode
    1, // FIFO kind
    2, // transmit mode
    SLOTS, // receive FIFO size
    SLOTS, // almost full threshold
    SLOTS, // almost empty threshold
    word::Gap::GREATEST, // transmit rate
    SLOTS, // receive level
    LAST_SLOT, // receive position
    SLOTS, // transmit level
    LAST_SLOT, // transmit position
    2, // transmitter state
    schedule::LAST, // command address
    1, // async mark
    ALL_CONDITIONS, // latch mask
    ALL_CONDITIONS, // enable mask
    ALL_CONDITIONS, // level mask
    1, // message mark
];

// Whether a number is in the range of the word at an offset.
pub fn in_range(at: usize, value: u32) -> bool
    requires { at < ranged }
    ensures { result ≡ in_range at value }
{
    (LEAST[at] <= value) & (value <= GREATEST[at])
}

// Whether every stored number of a block is in its range. Every word is tested, with no branch between them, and the settings and the other
// words have a loop each: the compiler unrolls loops of that length, the table's values become constants, and words with the same range are
// tested together.
pub fn is_sound(block: &[u32]) -> bool
    requires { Whole block.now }
    ensures { result ≡ sound block.now }
{
    let mut sound = true;
    for at in 0..SETTINGS {
        sound &= in_range(at, block[at]);
    }
    for at in SETTINGS..RANGED {
        sound &= in_range(at, block[at]);
    }
    sound && block[RECEIVE_LEVEL] <= block[RECEIVE_SIZE]
}
