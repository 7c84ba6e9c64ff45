// The entries of a FIFO: one accepted behind those held, the oldest taken out, all cleared. The two FIFOs differ in where their words
// stand and in the width of an entry.
ghost use Rattle.std.specs.Prelude.{◌≡◌, ◌<◌, length};
ghost use Rattle.block.specs.Layout.{word};
ghost use Rattle.fifos.specs.Clearing.{cleared};
ghost use Rattle.fifos.specs.Fifos.{oldest_entry, entry_appended, entry_taken};
ghost use Rattle.fifos.specs.Entries.{offsets_of, Fits};

use block::layout::{
    RECEIVE_ACCEPTED, RECEIVE_CLEARED, RECEIVE_LEVEL, RECEIVE_POSITION, RECEIVE_READ, RECEIVE_RING,
    TRANSMIT_ACCEPTED, TRANSMIT_CLEARED, TRANSMIT_LEVEL, TRANSMIT_POSITION, TRANSMIT_RING,
    TRANSMIT_SENT,
};

// Where a FIFO's words stand in a block; `taken` counts the entries read or sent.
#[derive(Clone, Copy)]
pub struct FifoWords {
    pub ring: usize,
    pub position: usize,
    pub level: usize,
    pub accepted: usize,
    pub taken: usize,
    pub cleared: usize,
}

// The receive FIFO, of entries of three words.
pub const RECEIVE: FifoWords = FifoWords {
    ring: RECEIVE_RING,
    position: RECEIVE_POSITION,
    level: RECEIVE_LEVEL,
    accepted: RECEIVE_ACCEPTED,
    taken: RECEIVE_READ,
    cleared: RECEIVE_CLEARED,
};

// The transmit FIFO, of single words.
pub const TRANSMIT: FifoWords = FifoWords {
    ring: TRANSMIT_RING,
    position: TRANSMIT_POSITION,
    level: TRANSMIT_LEVEL,
    accepted: TRANSMIT_ACCEPTED,
    taken: TRANSMIT_SENT,
    cleared: TRANSMIT_CLEARED,
};

// Accepts an entry behind those held.
pub fn append<const N: usize>(block: &mut [u32], fifo: FifoWords, entry: [u32; N])
    requires { Fits (offsets_of N fifo) block.old }
    ensures { block.new ≡ entry_appended (offsets_of N fifo) block.old entry.entry }
{
    let position = block[fifo.position];
    let level = block[fifo.level];
    let accepted = block[fifo.accepted];
    ring::append(block, fifo.ring, position, level, entry);
    block[fifo.level] = level + 1;
    block[fifo.accepted] = accepted.wrapping_add(1);
}

// Takes the oldest entry out.
pub fn take<const N: usize>(block: &mut [u32], fifo: FifoWords) -> [u32; N]
    requires { (Fits (offsets_of N fifo) block.old) × (0 < word block.old fifo.level) }
    ensures entry { result ≡ oldest_entry (offsets_of N fifo) block.old }
    ensures after { block.new ≡ entry_taken (offsets_of N fifo) block.old }
{
    let position = block[fifo.position];
    let level = block[fifo.level];
    let taken = block[fifo.taken];
    let oldest = ring::oldest(block, fifo.ring, position);
    block[fifo.level] = level - 1;
    block[fifo.position] = ring::next(position);
    block[fifo.taken] = taken.wrapping_add(1);
    oldest
}

// Clears the FIFO and counts what it held.
pub fn clear(block: &mut [u32], fifo: FifoWords)
    requires { (fifo.level < length block.old) × (fifo.cleared < length block.old) }
    ensures { block.new ≡ cleared fifo.level fifo.cleared block.old }
{
    block[fifo.cleared] = block[fifo.cleared].wrapping_add(block[fifo.level]);
    block[fifo.level] = 0;
}
