// When a question is refused: the count and the memory first, then the number of items, each item and the place.
ghost use Rattle.std.specs.Prelude.{◌≡◌, ◌+◌, ◌≤◌, length};
ghost use Rattle.power.specs.Power.{power_refusal};
ghost use Rattle.sessions.specs.Sessions.{item_bytes, item_at};
ghost use Rattle.reasons.specs.Refusals.{refusal_number};
ghost use Rattle.reasons.specs.Question.{is_call, are_calls, is_arrival, list_refusal, question_refusal};

use crate::items_of::item_at;
use crate::{MOST_ITEMS, Refusal};
use frame::layout::{MOST, need};
use little_endian::word_at;
use sessions::ITEM_BYTES;

// The op of an arrival, as the bytes of an item have it.
const ARRIVE: u32 = 128;

// The refusal of the working memory or of the count, as at power-up: written out, since each of the two refuses by its own enum.
#[tactic(auto, using(word::proofs::Branches::branches), unfolding(power::specs::Power::power_refusal))]
fn memory_refusal(count: u32, words: usize) -> Result<(), Refusal>
    ensures { refusal_number result ≡ power_refusal count words }
{
    if count < 1 {
        return Err(Refusal::NoCount);
    }
    if MOST < count {
        return Err(Refusal::NoCount);
    }
    if words < need(count) {
        return Err(Refusal::TooShort);
    }
    Ok(())
}

// Whether the item at an index is a call.
fn is_call(bytes: &[u8], at: usize) -> bool
    requires { at + item_bytes ≤ length bytes.now }
    ensures { result ≡ is_call (item_at bytes.now at) }
{
    item_at(bytes, at).is_some()
}

// Whether every item is a call; a cut one is none.
fn are_calls(bytes: &[u8]) -> bool
    ensures { result ≡ are_calls bytes.now }
{
    for done in 0..bytes.len() / ITEM_BYTES {
        if !is_call(bytes, ITEM_BYTES * done) {
            return false;
        }
    }
    bytes.len() % ITEM_BYTES == 0
}

// Whether the item at a place, from 1, is an arrival.
#[tactic(auto, using(word::proofs::Branches::branches), unfolding(crate::specs::Question::is_arrival))]
fn is_arrival(bytes: &[u8], place: u32) -> bool
    ensures { result ≡ is_arrival bytes.now place }
{
    if place < 1 {
        return false;
    }
    if bytes.len() / ITEM_BYTES < (place as usize) {
        return false;
    }
    word_at(bytes, ITEM_BYTES * ((place - 1) as usize)) == ARRIVE
}

// The refusal of the list and the place.
#[tactic(auto, using(crate::proofs::Lists::sizes), unfolding(crate::specs::Question::list_refusal))]
fn list_refusal(bytes: &[u8], place: u32) -> Result<(), Refusal>
    ensures { refusal_number result ≡ list_refusal bytes.now place }
{
    if ITEM_BYTES * MOST_ITEMS < bytes.len() {
        return Err(Refusal::TooManyItems);
    }
    if !are_calls(bytes) {
        return Err(Refusal::NoCall);
    }
    if !is_arrival(bytes, place) {
        return Err(Refusal::NoArrival);
    }
    Ok(())
}

// The refusal of a question about a list, with so many words of working memory.
#[tactic(auto, using(word::proofs::Branches::branches), unfolding(crate::specs::Question::question_refusal))]
pub fn refusal(count: u32, bytes: &[u8], place: u32, words: usize) -> Result<(), Refusal>
    ensures { refusal_number result ≡ question_refusal count bytes.now place words }
{
    memory_refusal(count, words)?;
    list_refusal(bytes, place)
}
