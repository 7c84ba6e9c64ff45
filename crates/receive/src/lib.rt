// The receive side of a channel's block: an arriving word, stored as was decided, and what it signals.
#![tactic(auto)]

ghost use Rattle.std.specs.Prelude.{◌≡◌, ◌<◌, ◌≤◌};
ghost use Rattle.ring.specs.Ring.{slots};
ghost use Rattle.ring.specs.Entry.{fields};
ghost use Rattle.block.specs.Layout.{word, receive_level};
ghost use Rattle.block.specs.Ranges.{Usable};
ghost use Rattle.fifos.specs.Mailboxes.{new_mark};
ghost use Rattle.fifos.specs.Fifos.{receive_offsets, entry_appended};
ghost use Rattle.arrival.specs.Arrival.{arrival};
ghost use Rattle.receive.specs.Entries.{stamp_of, entry_of, mailed};
ghost use Rattle.receive.specs.Arrived.{overwriting, stored, arrived, signalled, arrival_signal};

use arrival::{Arrival, decide};
use block::layout::{
    MAILBOXES, PARITY, RECEIVE_ACCEPTED, RECEIVE_LEVEL, RECEIVE_MODE, RECEIVE_OVERWRITTEN,
    RECEIVE_POSITION, RECEIVE_RING, STAMPS,
};
use block::modes::FIFO_MODE;
use fifos::entries::RECEIVE;
use fifos::mailboxes::{NEW, unlist};
use ring::Entry;
use status::rule::PARITY_ERROR;

// The answer to an arrival: what became of it, and the mask of the conditions that it signals.
#[derive(Drop)]
pub struct Arrived {
    pub arrival: Arrival,
    pub signal: u32,
}

// The stamp that is stored, by the channel's stamps setting.
#[tactic(auto, unfolding(crate::specs::Entries::stamp_of))]
fn stamp_of(stamps: u32, stamp: u32) -> u32
    ensures { result ≡ stamp_of stamps stamp }
{
    if stamps == 0 {
        return 0;
    }
    stamp
}

// The entry of a word: in mailbox mode the receive FIFO is a list of indices.
#[tactic(auto, unfolding(crate::specs::Entries::entry_of))]
fn entry_of(block: &[u32], stamp: u32, word: u32) -> Entry
    requires { Usable block.now }
    ensures { fields result ≡ entry_of stamp word block.now }
{
    if block[RECEIVE_MODE] == FIFO_MODE {
        return Entry {
            status: word::error_mark(block[PARITY], word),
            word,
            stamp: stamp_of(block[STAMPS], stamp),
        };
    }
    Entry {
        status: 0,
        word: word::index(word),
        stamp: 0,
    }
}

// In mailbox mode the mailbox of the word's index takes it, with the new mark or with 0 in its place.
#[tactic(auto, using(crate::proofs::Stores::mark_fits), unfolding(crate::specs::Entries::mailed))]
fn mail(block: &mut [u32], mark: u32, stamp: u32, word: u32)
    requires { (Usable block.old) × (mark ≤ new_mark) }
    ensures { block.new ≡ mailed mark stamp word block.old }
{
    if block[RECEIVE_MODE] == FIFO_MODE {
        return;
    }
    let error = word::error_mark(block[PARITY], word);
    let kept = stamp_of(block[STAMPS], stamp);
    let at = MAILBOXES + 3 * (word::index(word) as usize);
    block[at] = error + mark;
    block[at + 1] = word;
    block[at + 2] = kept;
}

// Accepts an entry behind those held.
#[tactic(auto, using(fifos::proofs::Bounds::receive_fits))]
fn append(block: &mut [u32], entry: Entry)
    requires { (Usable block.old) × (word block.old receive_level < slots) }
    ensures { block.new ≡ entry_appended receive_offsets block.old (fields entry) }
{
    fifos::entries::append(block, RECEIVE, <[u32; 3]>::from(entry));
}

// Accepts an entry over the oldest, and counts that one as overwritten.
#[tactic(auto, using(fifos::proofs::Bounds::bounds))]
fn overwrite(block: &mut [u32], entry: Entry)
    requires { Usable block.old }
    ensures { block.new ≡ overwriting block.old (fields entry) }
{
    let position = block[RECEIVE_POSITION];
    let level = block[RECEIVE_LEVEL];
    let accepted = block[RECEIVE_ACCEPTED];
    let overwritten = block[RECEIVE_OVERWRITTEN];
    let words = <[u32; 3]>::from(entry);
    ring::append(block, RECEIVE_RING, position, level, words);
    block[RECEIVE_POSITION] = ring::next(position);
    block[RECEIVE_ACCEPTED] = accepted.wrapping_add(1);
    block[RECEIVE_OVERWRITTEN] = overwritten.wrapping_add(1);
}

// Stores what the decision asks for.
#[tactic(auto, using(crate::proofs::Stores::mail_usable, crate::proofs::Stores::mail_room, crate::proofs::Stores::unlist_left), unfolding(crate::specs::Arrived::stored))]
fn store(block: &mut [u32], decision: Arrival, stamp: u32, word: u32)
    requires { (Usable block.old) × (decision ≡ arrival word block.old) }
    ensures { block.new ≡ stored decision stamp word block.old }
{
    let entry = entry_of(block, stamp, word);
    match decision {
        Arrival::Ignored => {}
        Arrival::Filtered => {}
        Arrival::Appended => {
            mail(block, NEW, stamp, word);
            append(block, entry);
        }
        Arrival::Dropped => mail(block, 0, stamp, word),
        Arrival::Overwriting => {
            unlist(block, 1);
            mail(block, NEW, stamp, word);
            overwrite(block, entry);
        }
        Arrival::AlreadyListed => mail(block, NEW, stamp, word),
    }
}

// The conditions that an arrival signals: a parity error of a word that entered the FIFO or a mailbox.
#[tactic(auto, using(crate::proofs::Stores::mark_fits), unfolding(crate::specs::Arrived::signalled))]
fn signal_of(block: &[u32], decision: Arrival, word: u32) -> u32
    requires { Usable block.now }
    ensures { result ≡ signalled decision word block.now }
{
    let signal = word::error_mark(block[PARITY], word) * PARITY_ERROR;
    match decision {
        Arrival::Ignored => 0,
        Arrival::Filtered => 0,
        Arrival::Appended => signal,
        Arrival::Dropped => {
            if block[RECEIVE_MODE] == FIFO_MODE {
                return 0;
            }
            signal
        }
        Arrival::Overwriting => signal,
        Arrival::AlreadyListed => signal,
    }
}

// A word arrives.
pub fn arrive(block: &mut [u32], stamp: u32, word: u32) -> Arrived
    requires { Usable block.old }
    ensures arrival { result.arrival ≡ arrival word block.old }
    ensures signal { result.signal ≡ arrival_signal word block.old }
    ensures after { block.new ≡ arrived stamp word block.old }
{
    let decision = decide(block, word);
    let signal = signal_of(block, decision, word);
    store(block, decision, stamp, word);
    Arrived {
        arrival: decision,
        signal,
    }
}
