// The items of a list, as bytes.
ghost use Rattle.std.specs.Prelude.{◌≡◌, ◌+◌, ◌*◌, ◌/◌, ◌≤◌, length};
ghost use Rattle.sessions.specs.Sessions.{item_bytes, item_at};
ghost use Rattle.reasons.specs.Question.{channel_at};

use little_endian::word_at;
use registers::accesses::Access;
use sessions::ITEM_BYTES;

// The item at an index.
pub fn item_at(bytes: &[u8], at: usize) -> Option<Access>
    requires { at + item_bytes ≤ length bytes.now }
    ensures { result ≡ item_at bytes.now at }
{
    items::decode(
        word_at(bytes, at),
        word_at(bytes, at + 4),
        word_at(bytes, at + 8),
        word_at(bytes, at + 12),
    )
}

// The channel of the item at a place, from 1.
pub fn channel_at(bytes: &[u8], place: u32) -> u32
    requires { (1 ≤ place) × (item_bytes * place ≤ length bytes.now) }
    ensures { result ≡ channel_at bytes.now place }
{
    word_at(bytes, ITEM_BYTES * ((place - 1) as usize) + 4)
}
