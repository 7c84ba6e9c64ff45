// A session is a list of call items as bytes, one after another: the words op, channel, a and b, lowest byte first. It is performed on the
// memory of a module of twelve channels at most.
#![tactic(auto)]

ghost use Rattle.std.specs.Prelude.{◌≡◌, ◌+◌, ◌≤◌, length, replicate};
ghost use Rattle.frame.specs.Layout.{need, most};
ghost use Rattle.calls.specs.Listed.{Lists};
ghost use Rattle.calls.specs.Performed.{item_numbers, item_after};
ghost use Rattle.sessions.specs.Sessions.{item_bytes, item_at};

use block::layout::WORDS;
use calls::answers::Numbers;
use frame::layout::{MODULE_WORDS, MOST};
use little_endian::word_at;

// The bytes of an item.
pub const ITEM_BYTES: usize = 16;

// The words of twelve channels.
pub const NEED: usize = MODULE_WORDS + (MOST as usize) * WORDS;

// Their memory, all zeros.
pub fn memory() -> [u32; NEED]
    ensures { result ≡ replicate (need most) 0 }
{
    [0; NEED]
}

// Performs the item at an index on a module's memory and lists its answer.
pub fn perform_at(mem: &mut [u32], bytes: &[u8], at: usize) -> Numbers
    requires { at + item_bytes ≤ length bytes.now }
    ensures answer { Lists result (item_numbers (item_at bytes.now at) mem.old) }
    ensures after { mem.new ≡ item_after (item_at bytes.now at) mem.old }
{
    calls::perform::perform_item(
        mem,
        word_at(bytes, at),
        word_at(bytes, at + 4),
        word_at(bytes, at + 8),
        word_at(bytes, at + 12),
    )
}
