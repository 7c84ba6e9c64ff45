// What the lines of a card add up to.
ghost use Rattle.std.specs.Prelude.{◌≡◌, length};
ghost use Rattle.card_text.specs.Card.{begun, faulty, with_parity, parity_taken, word_card, word_list, async_card, async_list, output_card, output_list, wrong_line};

use crate::faults::Fault;
use card_lines::fields::Entry;

// The parities: 0, off, and 1, on.
const PARITIES: u32 = 2;

// The parity, once it was read; how many numbers are stored of words, async words and outputs; whether an async word or an output was read; and
// what is wrong, if anything. The lists are the caller's, since a program asks for no memory.
#[derive(Clone, Copy)]
pub struct Card {
    pub parity: Option<u32>,
    pub words: usize,
    pub asyncs: usize,
    pub outputs: usize,
    pub listed: bool,
    pub fault: Option<Fault>,
}

// Nothing read yet.
pub fn begun() -> Card
    ensures { result ≡ begun }
{
    Card {
        parity: None,
        words: 0,
        asyncs: 0,
        outputs: 0,
        listed: false,
        fault: None,
    }
}

// The card with a fault.
pub fn faulty(card: Card, fault: Fault) -> Card
    ensures { result ≡ faulty card fault }
{
    Card {
        fault: Some(fault),
        ..card
    }
}

// The parity: 0 or 1.
fn with_parity(card: Card, word: u32) -> Card
    ensures { result ≡ with_parity card word }
{
    if word < PARITIES {
        return Card {
            parity: Some(word),
            fault: None,
            ..card
        };
    }
    faulty(card, Fault::NoParity)
}

// The line that has the parity.
pub fn parity_taken(card: Card, entry: Entry) -> Card
    ensures { result ≡ parity_taken card entry }
{
    match entry {
        Entry::Blank => card,
        Entry::Word(word) => with_parity(card, word),
        Entry::Async(_, _) | Entry::Out(_, _, _, _) | Entry::NoEntry => faulty(
            card,
            Fault::NoParity,
        ),
    }
}

// A word of the RAMs, behind the others.
#[tactic(auto, using(word::proofs::Branches::branches), unfolding(crate::specs::Card::word_card, crate::specs::Card::word_list))]
pub fn word_taken(words: &mut [u32], card: Card, word: u32) -> Card
    ensures answer { result ≡ word_card (length words.old) card }
    ensures after { words.new ≡ word_list words.old card word }
{
    if card.listed {
        return faulty(card, Fault::NoEntry);
    }
    if card.words < words.len() {
        words[card.words] = word;
        return Card {
            words: card.words + 1,
            listed: false,
            fault: None,
            ..card
        };
    }
    faulty(card, Fault::NoEntry)
}

// An async word with its step, behind the others.
#[tactic(auto, using(word::proofs::Branches::branches), unfolding(crate::specs::Card::async_card, crate::specs::Card::async_list))]
pub fn async_taken(asyncs: &mut [u32], card: Card, step: u32, word: u32) -> Card
    ensures answer { result ≡ async_card (length asyncs.old) card }
    ensures after { asyncs.new ≡ async_list asyncs.old card step word }
{
    let count = card.asyncs;
    if asyncs.len() <= count {
        return faulty(card, Fault::NoRoom);
    }
    if asyncs.len() - count < 2 {
        return faulty(card, Fault::NoRoom);
    }
    asyncs[count] = step;
    asyncs[count + 1] = word;
    Card {
        asyncs: count + 2,
        listed: true,
        fault: None,
        ..card
    }
}

// An output behind the others; one for which there is no room is passed over, since the outputs before it are too many already.
#[tactic(auto, using(word::proofs::Branches::branches), unfolding(crate::specs::Card::output_card, crate::specs::Card::output_list))]
pub fn output_taken(outputs: &mut [u32], card: Card, form: u32, x: u32, y: u32, z: u32) -> Card
    ensures answer { result ≡ output_card (length outputs.old) card }
    ensures after { outputs.new ≡ output_list outputs.old card form x y z }
{
    let listed = Card {
        listed: true,
        fault: None,
        ..card
    };
    let count = card.outputs;
    if outputs.len() <= count {
        return listed;
    }
    if outputs.len() - count < 4 {
        return listed;
    }
    outputs[count] = form;
    outputs[count + 1] = x;
    outputs[count + 2] = y;
    outputs[count + 3] = z;
    Card {
        outputs: count + 4,
        ..listed
    }
}

// A line that says none of these: a word was due while the RAMs have room and no async word or output was read.
pub fn wrong_line(card: Card, room: usize) -> Card
    ensures { result ≡ wrong_line card room }
{
    if !card.listed && card.words < room {
        return faulty(card, Fault::NoWord);
    }
    faulty(card, Fault::NoEntry)
}
