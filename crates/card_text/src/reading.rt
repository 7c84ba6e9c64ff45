// The text of a card, a byte after the other.
// The three lists are lent one by one: of a struct of lent lists each function would also have to promise that they are still the same three.
ghost use Rattle.std.specs.Prelude.{◌≡◌};
ghost use Rattle.card_text.specs.Gathered.{Left, Held, state_of, text_of, entry_taken, line_taken, line_after, line_ended, byte_taken, text_taken, with_parity, finished};

use crate::card;
use crate::card::Card;
use crate::faults::Fault;
use card_lines::fields;
use card_lines::fields::{Entry, Fields};

// The line that is being read, what the lines before it made up, and its number, from 1: of the first wrong line where there is one.
#[derive(Clone, Copy)]
pub struct Progress {
    pub fields: Fields,
    pub card: Card,
    pub line: u64,
}

// Nothing read yet.
pub fn begun() -> Progress
    ensures { result ≡ Rattle.card_text.specs.Gathered.begun }
{
    Progress {
        fields: fields::begun(),
        card: card::begun(),
        line: 1,
    }
}

// What a line behind the parity says, put into the lists.
fn entry_taken(
    words: &mut [u32],
    asyncs: &mut [u32],
    outputs: &mut [u32],
    card: Card,
    entry: Entry,
) -> Card
    ensures { Left (entry_taken (state_of card words.old asyncs.old outputs.old) entry) result words.new asyncs.new outputs.new }
{
    match entry {
        Entry::Blank => card,
        Entry::Word(word) => card::word_taken(words, card, word),
        Entry::Async(step, word) => card::async_taken(asyncs, card, step, word),
        Entry::Out(form, x, y, z) => card::output_taken(outputs, card, form, x, y, z),
        Entry::NoEntry => card::wrong_line(card, words.len()),
    }
}

// What a line says: the parity comes first.
fn line_taken(
    words: &mut [u32],
    asyncs: &mut [u32],
    outputs: &mut [u32],
    card: Card,
    entry: Entry,
) -> Card
    ensures { Left (line_taken (state_of card words.old asyncs.old outputs.old) entry) result words.new asyncs.new outputs.new }
{
    if card.parity.is_some() {
        return entry_taken(words, asyncs, outputs, card, entry);
    }
    card::parity_taken(card, entry)
}

// The number of the next line; a wrong line keeps its own.
fn line_after(card: Card, line: u64) -> u64
    ensures { result ≡ line_after card line }
{
    if card.fault.is_some() {
        return line;
    }
    line.wrapping_add(1)
}

// The line ends here: what it says is taken, and the next one begins.
fn line_ended(words: &mut [u32], asyncs: &mut [u32], outputs: &mut [u32], at: Progress) -> Progress
    ensures { Held (line_ended (text_of at words.old asyncs.old outputs.old)) result words.new asyncs.new outputs.new }
{
    let card = line_taken(words, asyncs, outputs, at.card, fields::said(at.fields));
    Progress {
        fields: fields::begun(),
        card,
        line: line_after(card, at.line),
    }
}

// The text with one byte more.
fn byte_taken(
    words: &mut [u32],
    asyncs: &mut [u32],
    outputs: &mut [u32],
    at: Progress,
    byte: u8,
) -> Progress
    ensures { Held (byte_taken (text_of at words.old asyncs.old outputs.old) byte) result words.new asyncs.new outputs.new }
{
    if at.card.fault.is_some() {
        return at;
    }
    if byte == b'\n' {
        return line_ended(words, asyncs, outputs, at);
    }
    Progress {
        fields: fields::taken(at.fields, byte),
        ..at
    }
}

// The bytes of a text, in turn.
pub fn text_taken(
    words: &mut [u32],
    asyncs: &mut [u32],
    outputs: &mut [u32],
    mut at: Progress,
    text: &[u8],
) -> Progress
    ensures { Held (text_taken (text_of at words.old asyncs.old outputs.old) text.now) result words.new asyncs.new outputs.new }
{
    for byte in text {
        at = byte_taken(words, asyncs, outputs, at, *byte);
    }
    at
}

// A text with no parity is wrong at its last line.
#[tactic(auto, unfolding(crate::specs::Gathered::with_parity))]
fn with_parity(at: Progress, line: u64) -> Progress
    ensures { result ≡ with_parity at line }
{
    if at.card.parity.is_some() {
        return at;
    }
    Progress {
        card: card::faulty(at.card, Fault::NoParity),
        line,
        ..at
    }
}

// The end of the text, which ends its last line.
pub fn finished(
    words: &mut [u32],
    asyncs: &mut [u32],
    outputs: &mut [u32],
    at: Progress,
) -> Progress
    ensures { Held (finished (text_of at words.old asyncs.old outputs.old)) result words.new asyncs.new outputs.new }
{
    if at.card.fault.is_some() {
        return at;
    }
    with_parity(line_ended(words, asyncs, outputs, at), at.line)
}
