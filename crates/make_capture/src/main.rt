// Makes a capture of a session. Standard input has call items of 16 bytes, as `replay` takes them, performed on a module of twelve channels at
// most whose memory starts as all zeros. Standard output gets a record for each accepted arrival, whatever its outcome, with its channel and
// word and the stamp at that moment.
#![tactic(auto)]

ghost use Rattle.std.specs.Prelude.{◌≡◌, ◌+◌, ◌/◌, ◌≤◌, length};
ghost use Rattle.calls.specs.Performed.{item_after};
ghost use Rattle.sessions.specs.Sessions.{item_bytes, item_at, performed};

use sessions::ITEM_BYTES;
use std::io::Write;

// The room for an arrival's record.
const RECORD: usize = 14;

// Performs the item at an index and writes its record.
fn record_at(out: &mut impl Write, mem: &mut [u32], bytes: &[u8], at: usize)
    requires { at + item_bytes ≤ length bytes.now }
    ensures { mem.new ≡ item_after (item_at bytes.now at) mem.old }
{
    let mut record = [0u8; RECORD];
    let count = recorder::record_at(mem, bytes, at, &mut record);
    if count == RECORD {
        streams::write_all(out, &record);
    }
}

// Performs the items in order; a cut last item is no call. `replay` has its own loop: each says what it leaves of the memory.
fn record_all(out: &mut impl Write, mem: &mut [u32], bytes: &[u8])
    ensures { mem.new ≡ performed (length bytes.now / item_bytes) bytes.now mem.old }
{
    for done in 0..bytes.len() / ITEM_BYTES {
        record_at(out, mem, bytes, ITEM_BYTES * done);
    }
}

fn main(rt: HostRuntime) {
    let mut out = rt.stdout();
    let mut mem = sessions::memory();
    streams::each_part(
        &mut rt.stdin(),
        |items| record_all(&mut out, &mut mem, items),
    );
}
