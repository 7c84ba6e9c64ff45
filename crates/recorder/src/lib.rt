// Records the arrivals of a session: each item is performed as it is in a session, and an accepted arrival leaves a record.
#![tactic(auto)]

ghost use Rattle.std.specs.Prelude.{◌≡◌, ◌+◌, ◌≤◌, length};
ghost use Rattle.calls.specs.Performed.{item_after};
ghost use Rattle.sessions.specs.Sessions.{item_bytes, item_at};
ghost use Rattle.recorder.specs.Recorded.{stamp_of, out_after, count_of};

use capture::Cursor;
use capture::kinds::Kind;
use little_endian::word_at;

// The op of an arrival, as the bytes of an item have it.
const ARRIVE: u32 = 128;

// The op of a stamp read, as an item has it.
const READ_STAMP: u32 = 5;

// What a stamp read gives; it changes nothing.
pub fn stamp(mem: &mut [u32]) -> u32
    ensures answer { result ≡ stamp_of mem.old }
    ensures after { mem.new ≡ mem.old }
{
    let words = calls::perform::perform_item(mem, READ_STAMP, 0, 0, 0).words;
    words[1]
}

// Performs the item at an index, and writes the record of an accepted arrival at the start of the output: how many bytes it has, 0 where
// there is none.
pub fn record_at(mem: &mut [u32], bytes: &[u8], at: usize, out: &mut [u8]) -> usize
    requires { at + item_bytes ≤ length bytes.now }
    ensures count { result ≡ count_of bytes.now at mem.old out.old }
    ensures written { out.new ≡ out_after bytes.now at mem.old out.old }
    ensures after { mem.new ≡ item_after (item_at bytes.now at) mem.old }
{
    let words = sessions::perform_at(mem, bytes, at).words;
    if word_at(bytes, at) != ARRIVE {
        return 0;
    }
    if words[0] != 0 {
        return 0;
    }
    let stamp = stamp(mem);
    match capture::writing::write(
        out,
        Cursor { offset: 0 },
        Kind::Arrival.into(),
        word_at(bytes, at + 4),
        word_at(bytes, at + 8),
        stamp,
        &[],
    ) {
        Ok(next) => next.offset,
        Err(_) => 0,
    }
}
