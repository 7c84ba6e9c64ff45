// Performs a list of calls on a module of twelve channels at most, whose memory starts as all zeros. Standard input has items of 16 bytes:
// the words op, channel, a and b, lowest byte first. One line is written for each: the answer's number and its values.
#![tactic(auto)]

ghost use Rattle.std.specs.Prelude.{◌≡◌, ◌+◌, ◌/◌, ◌≤◌, length};
ghost use Rattle.calls.specs.Performed.{item_after};
ghost use Rattle.sessions.specs.Sessions.{item_bytes, item_at, performed};

use calls::perform::NO_CALL;
use sessions::ITEM_BYTES;
use std::io::Write;

// Writes the number in a place of a line: a space parts it from the one before. By `streams`, each number a write: no format writes a list.
fn put(out: &mut impl Write, place: usize, number: u32) {
    if 0 < place {
        streams::write_all(out, b" ");
    }
    streams::print_decimal(out, u64::from(number));
}

// Writes the numbers as one line.
fn show(out: &mut impl Write, numbers: &[u32]) {
    for (place, number) in numbers.iter().enumerate() {
        put(out, place, *number);
    }
    streams::write_all(out, b"\n");
}

// Performs the item at an index and writes its line.
fn perform_at(out: &mut impl Write, mem: &mut [u32], bytes: &[u8], at: usize)
    requires { at + item_bytes ≤ length bytes.now }
    ensures { mem.new ≡ item_after (item_at bytes.now at) mem.old }
{
    let answered = sessions::perform_at(mem, bytes, at);
    show(out, &answered.words[..answered.count]);
}

// Performs the items in order; a cut last item is no call. `make_capture` has its own loop: each says what it leaves of the memory.
fn perform_all(out: &mut impl Write, mem: &mut [u32], bytes: &[u8])
    ensures { mem.new ≡ performed (length bytes.now / item_bytes) bytes.now mem.old }
{
    for done in 0..bytes.len() / ITEM_BYTES {
        perform_at(out, mem, bytes, ITEM_BYTES * done);
    }
    if bytes.len() % ITEM_BYTES != 0 {
        show(out, &[NO_CALL]);
    }
}

fn main(rt: HostRuntime) {
    let mut out = rt.stdout();
    let mut mem = sessions::memory();
    streams::each_part(
        &mut rt.stdin(),
        |items| perform_all(&mut out, &mut mem, items),
    );
}
