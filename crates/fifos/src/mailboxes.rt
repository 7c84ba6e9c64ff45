// The new marks of the mailboxes, and what entries that leave the index list unread do to them.
ghost use Rattle.std.specs.Prelude.{◌≡◌, ◌+◌, ◌%◌, ◌<◌};
ghost use Rattle.ring.specs.Ring.{slots};
ghost use Rattle.block.specs.Layout.{Whole, indexes};
ghost use Rattle.fifos.specs.Mailboxes.{mark_taken, listed_index, marks_taken, unlisted};

use block::layout::{INDEXES, MAILBOXES, RECEIVE_MODE, RECEIVE_POSITION, RECEIVE_RING};
use block::modes::FIFO_MODE;
use ring::SLOTS;

// The new mark, D1 of a mailbox's status.
pub const NEW: u32 = 2;

// Takes the new mark from the mailbox of an index: of its status only D0 stays.
pub fn take_mark(block: &mut [u32], index: u32)
    requires { (Whole block.old) × (index < indexes) }
    ensures { block.new ≡ mark_taken index block.old }
{
    let at = MAILBOXES + 3 * (index as usize);
    block[at] = block[at] % 2;
}

// The slot of an entry of the list, the oldest being entry 0 in the slot of the position: the sum of two 32-bit numbers fits in 64 bits.
fn slot_of(position: u32, entry: u32) -> usize
    ensures { result ≡ (position + entry) % slots }
{
    ((u64::from(position) + u64::from(entry)) % u64::from(SLOTS)) as usize
}

// The index that an entry of the list names, the oldest being entry 0: the entry's word may hold anything.
fn listed_index(block: &[u32], entry: u32) -> u32
    requires { Whole block.now }
    ensures { result ≡ listed_index entry block.now }
{
    let slot = slot_of(block[RECEIVE_POSITION], entry);
    block[RECEIVE_RING + 3 * slot + 1] % INDEXES
}

// In mailbox mode the mailboxes of the oldest `entries` entries lose their marks, oldest first.
#[tactic(auto, unfolding(crate::specs::Mailboxes::unlisted, crate::specs::Mailboxes::marks_taken))]
pub fn unlist(block: &mut [u32], entries: u32)
    requires { Whole block.old }
    ensures { block.new ≡ unlisted entries block.old }
{
    if block[RECEIVE_MODE] == FIFO_MODE {
        return;
    }
    for entry in 0..entries {
        let index = listed_index(block, entry);
        take_mark(block, index);
    }
}
