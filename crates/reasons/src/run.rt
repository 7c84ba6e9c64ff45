// The items performed one after another, and the arrival followed.
ghost use Rattle.std.specs.Prelude.{◌≡◌, ◌+◌, ◌*◌, ◌/◌, ◌≤◌, ◌<◌, length};
ghost use Rattle.calls.specs.Performed.{item_after};
ghost use Rattle.following.specs.Course.{most_held, held_before};
ghost use Rattle.sessions.specs.Sessions.{item_bytes, item_at, performed};
ghost use Rattle.reasons.specs.Question.{most_items};
ghost use Rattle.reasons.specs.Followed.{followed, followed_to};

use crate::items_of::item_at;
use following::course::Watch;
use sessions::ITEM_BYTES;

// Performs the item behind `done` others, and follows the arrival on.
fn follow(mem: &mut [u32], bytes: &[u8], done: u32, channel: u32, place: u32, watch: Watch) -> Watch
    requires { (done < most_items) × (item_bytes * done + item_bytes ≤ length bytes.now) × (held_before watch.course < most_held) }
    ensures answer { result ≡ followed (item_at bytes.now (item_bytes * done)) channel place (done + 1) mem.old watch }
    ensures after { mem.new ≡ item_after (item_at bytes.now (item_bytes * done)) mem.old }
{
    match item_at(bytes, ITEM_BYTES * (done as usize)) {
        None => watch,
        Some(access) => {
            let answer = registers::perform::perform(mem, access);
            following::course::next(watch, channel, place, done + 1, access, answer)
        }
    }
}

// Performs every whole item, and follows the arrival at a place of a channel.
pub fn run(mem: &mut [u32], bytes: &[u8], channel: u32, place: u32) -> Watch
    requires { length bytes.now ≤ item_bytes * most_items }
    ensures answer { result ≡ followed_to (length bytes.now / item_bytes) bytes.now channel place mem.old }
    ensures after { mem.new ≡ performed (length bytes.now / item_bytes) bytes.now mem.old }
{
    let whole = (bytes.len() / ITEM_BYTES) as u32;
    let mut watch = following::course::begun();
    for done in 0..whole {
        watch = follow(mem, bytes, done, channel, place, watch);
    }
    watch
}
