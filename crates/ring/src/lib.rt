// First-in, first-out rings of 255 slots in a lent block of words: the receive FIFO's entries are three words, the transmit FIFO's one.
// A ring starts at the word `at`. Its position (the slot of the oldest entry) and its level (how many entries it holds) stand elsewhere
// in the block: the caller passes them and stores them.
#![tactic(auto)]

ghost use Rattle.std.specs.Prelude.{◌≡◌, ◌≤◌, ◌<◌, length};
ghost use Rattle.ring.specs.Ring.{slots, appended, oldest, next, end, of_width};
ghost use Rattle.ring.specs.Entry.{fields};

// The slots of a ring: a FIFO holds at most so many entries.
pub const SLOTS: u32 = 255;

pub const LAST_SLOT: u32 = SLOTS - 1;

// An entry of the receive FIFO.
#[derive(Drop)]
pub struct Entry {
    pub status: u32,
    pub word: u32,
    pub stamp: u32,
}

impl From<Entry> for [u32; 3] {
    ghost from_gives = { λ entry words. words ≡ fields entry };

    fn from(entry: Entry) -> [u32; 3] {
        [entry.status, entry.word, entry.stamp]
    }
}

impl From<[u32; 3]> for Entry {
    ghost from_gives = { λ words entry. fields entry ≡ words };

    fn from(words: [u32; 3]) -> Entry {
        let [status, word, stamp] = words;
        Entry {
            status,
            word,
            stamp,
        }
    }
}

// Stores an entry of N words in the slot behind the `level` entries from slot `pos` on. Where the ring holds as many as it may, the
// caller moves the position on as well, and the oldest is overwritten.
pub fn append<const N: usize>(block: &mut [u32], at: usize, pos: u32, level: u32, entry: [u32; N])
    requires { (pos < slots) × (level ≤ slots) × (end (of_width N at) ≤ length block.old) }
    ensures { block.new ≡ appended (of_width N at) block.old pos level entry.entry }
{
    let s = at + N * (((pos + level) % SLOTS) as usize);
    block[s..s + N].copy_from_slice(&entry);
}

// The oldest entry, of N words.
pub fn oldest<const N: usize>(block: &[u32], at: usize, pos: u32) -> [u32; N]
    requires { (pos < slots) × (end (of_width N at) ≤ length block.now) }
    ensures { result ≡ oldest (of_width N at) block.now pos }
{
    let s = at + N * (pos as usize);
    let mut entry = [0; N];
    entry.copy_from_slice(&block[s..s + N]);
    entry
}

// The position once the oldest entry is taken out or overwritten.
pub fn next(pos: u32) -> u32
    requires { pos < slots }
    ensures { result ≡ next slots pos }
{
    (pos + 1) % SLOTS
}
