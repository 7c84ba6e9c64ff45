// The reads of the receive FIFO and of a mailbox.
#![tactic(auto)]

ghost use Rattle.std.specs.Prelude.{◌≡◌, ◌<◌};
ghost use Rattle.ring.specs.Entry.{fields};
ghost use Rattle.block.specs.Layout.{word, receive_level, indexes};
ghost use Rattle.block.specs.Ranges.{Usable};
ghost use Rattle.receive_reads.specs.Reading.{shown, read_answer, read_after, mailbox_answer, mailbox_after};

use block::layout::MAILBOXES;
use fifos::entries::{RECEIVE, take};
use fifos::mailboxes::take_mark;
use ring::Entry;

// An entry as a read shows it: of its status the two low bits count.
fn shown(entry: Entry) -> Entry
    ensures { fields result ≡ shown (fields entry) }
{
    Entry {
        status: entry.status % 4,
        ..entry
    }
}

// Takes the oldest entry out of the receive FIFO.
#[tactic(auto, using(fifos::proofs::Bounds::receive_fits))]
pub fn read_fifo(block: &mut [u32]) -> Entry
    requires { (Usable block.old) × (0 < word block.old receive_level) }
    ensures entry { fields result ≡ read_answer block.old }
    ensures after { block.new ≡ read_after block.old }
{
    let oldest = take(block, RECEIVE);
    shown(Entry::from(oldest))
}

// Reads a mailbox, which is then no longer new.
#[tactic(auto, unfolding(ring::specs::Ring::words))]
pub fn read_mailbox(block: &mut [u32], index: u32) -> Entry
    requires { (Usable block.old) × (index < indexes) }
    ensures entry { fields result ≡ mailbox_answer index block.old }
    ensures after { block.new ≡ mailbox_after index block.old }
{
    let at = MAILBOXES + 3 * (index as usize);
    let entry = Entry {
        status: block[at],
        word: block[at + 1],
        stamp: block[at + 2],
    };
    take_mark(block, index);
    shown(entry)
}
