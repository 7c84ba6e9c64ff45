// What becomes of an arriving word, by the settings, the match set, its mailbox and the receive FIFO.
#![tactic(auto)]

ghost use Rattle.std.specs.Prelude.{◌≡◌};
ghost use Rattle.block.specs.Ranges.{Usable};
ghost use Rattle.arrival.specs.Arrival.{filtered, listed, arrival};

use block::layout::{
    FIFO_KIND, MAILBOXES, MATCH, RECEIVE_LEVEL, RECEIVE_MODE, RECEIVE_SIZE, RECEIVER,
};
use block::modes::{BOUNDED, FIFO_MODE};
use fifos::mailboxes::NEW;

// What became of an arriving word: ignored with the receiver off; not in the match set; appended; dropped by a full bounded FIFO; appended
// over the oldest of a full circular FIFO; its index, in mailbox mode, not appended again while its mailbox is new.
#[derive(Clone, Copy)]
pub enum Arrival {
    Ignored,
    Filtered,
    Appended,
    Dropped,
    Overwriting,
    AlreadyListed,
}

// Whether the match set filters a word out.
#[tactic(auto, unfolding(crate::specs::Arrival::filtered))]
fn is_filtered(block: &[u32], word: u32) -> bool
    requires { Usable block.now }
    ensures { result ≡ filtered word block.now }
{
    if block[MATCH] == 0 {
        return false;
    }
    memories::matching::read(block, word::index(word)) == 0
}

// Whether a word's index is not to be listed again: in mailbox mode its mailbox still has the new mark.
#[tactic(auto, unfolding(crate::specs::Arrival::listed))]
fn is_listed(block: &[u32], word: u32) -> bool
    requires { Usable block.now }
    ensures { result ≡ listed word block.now }
{
    if block[RECEIVE_MODE] == FIFO_MODE {
        return false;
    }
    block[MAILBOXES + 3 * (word::index(word) as usize)] / NEW % 2 == 1
}

// What becomes of a word, decided before anything is stored.
#[tactic(auto, unfolding(crate::specs::Arrival::arrival))]
pub fn decide(block: &[u32], word: u32) -> Arrival
    requires { Usable block.now }
    ensures { result ≡ arrival word block.now }
{
    if block[RECEIVER] == 0 {
        return Arrival::Ignored;
    }
    if is_filtered(block, word) {
        return Arrival::Filtered;
    }
    if is_listed(block, word) {
        return Arrival::AlreadyListed;
    }
    if block[RECEIVE_LEVEL] < block[RECEIVE_SIZE] {
        return Arrival::Appended;
    }
    if block[FIFO_KIND] == BOUNDED {
        return Arrival::Dropped;
    }
    Arrival::Overwriting
}
