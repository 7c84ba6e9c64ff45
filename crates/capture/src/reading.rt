// Reading the record at an offset of capture bytes.
ghost use Rattle.std.specs.Prelude.{◌≡◌, ◌+◌, ◌*◌, ◌-◌, ◌≤◌, length, replicate, IfOk};
ghost use Rattle.std.proofs.lemmas.List.Edits.{sets};
ghost use Rattle.capture.specs.Format.{lent_words, whole};
ghost use Rattle.capture.specs.Numbers.{kind_number, number_of, answer_of};
ghost use Rattle.capture.specs.Read.{kind_refusal, channel_refusal, refusal_at, kind_at, nothing, found_at, seen_at, read_at, words_at, lent_after};

use crate::Cursor;
use crate::kinds::{CHANNELS, HALF, Kind, LENT_WORDS, WHOLE};
use crate::refusal::Refusal;
use little_endian::{half_at, word_at};

// The record at an offset, and the offset behind it. Word and stamp are an arrival's; an image has them as 0, which is what C gets.
#[derive(Clone, Copy)]
pub struct Found {
    pub kind: Kind,
    pub next: Cursor,
    pub channel: u32,
    pub word: u32,
    pub stamp: u32,
}

// What stands at an offset, in numbers as C and a line have them. The functions here give kind 0 at the end of the bytes and beside a refusal, and then
// the offset is the same; one that is given an answer takes any numbers.
#[derive(Clone, Copy)]
pub struct Answer {
    pub number: u32,
    pub kind: u32,
    pub next: Cursor,
    pub channel: u32,
    pub word: u32,
    pub stamp: u32,
}

// The kind of a number, where a record of it has this length.
fn kind_of_length(long: u32, number: u32) -> Result<Kind, Refusal>
    ensures refusal { number_of result ≡ kind_refusal long number }
    ensures kind { IfOk result (λ kind. kind_number kind ≡ number) }
{
    let kind = Kind::try_from(number)?;
    if long as usize == kind.length() {
        Ok(kind)
    } else {
        Err(Refusal::WrongLength)
    }
}

pub fn channel_refusal(channel: u32) -> Result<(), Refusal>
    ensures { number_of result ≡ channel_refusal channel }
{
    if channel < 1 || CHANNELS < channel {
        return Err(Refusal::WrongChannel);
    }
    Ok(())
}

// The kind of the record at an offset, or its refusal, before any lent words are asked for.
fn kind_at(bytes: &[u8], at: usize) -> Result<Kind, Refusal>
    requires { at ≤ length bytes.now }
    ensures refusal { number_of result ≡ refusal_at bytes.now at }
    ensures kind { IfOk result (λ kind. kind_number kind ≡ kind_at bytes.now at) }
{
    if bytes.len() - at < HALF {
        return Err(Refusal::Cut);
    }
    let long = half_at(bytes, at);
    if bytes.len() - at - HALF < long as usize {
        return Err(Refusal::Cut);
    }
    if (long as usize) < HALF {
        return Err(Refusal::WrongLength);
    }
    let kind = kind_of_length(long, half_at(bytes, at + HALF))?;
    channel_refusal(half_at(bytes, at + HALF + HALF))?;
    Ok(kind)
}

// The record of a kind at an offset, whose refusal is 0.
fn found_at(bytes: &[u8], at: usize, kind: Kind) -> Found
    requires at_in_bounds { at ≤ length bytes.now }
    requires at_value { refusal_at bytes.now at ≡ 0 }
    requires kind_value { kind_number kind ≡ kind_at bytes.now at }
    ensures { answer_of at (Ok (Some result)) ≡ found_at bytes.now at }
{
    let next = Cursor {
        offset: at + HALF + kind.length(),
    };
    let channel = half_at(bytes, at + HALF + HALF);
    let body = at + HALF + HALF + HALF;
    match kind {
        Kind::Arrival => Found {
            kind,
            next,
            channel,
            word: word_at(bytes, body),
            stamp: word_at(bytes, body + WHOLE),
        },
        Kind::OldImage | Kind::Image => Found {
            kind,
            next,
            channel,
            word: 0,
            stamp: 0,
        },
    }
}

// What stands at an offset: a record, none at the end, or a refusal 20 to 23; no lent words are asked for.
pub fn look(bytes: &[u8], cursor: Cursor) -> Result<Option<Found>, Refusal>
    ensures { answer_of cursor.offset result ≡ seen_at bytes.now cursor.offset }
{
    let at = cursor.offset;
    if at == bytes.len() {
        return Ok(None);
    }
    if bytes.len() < at {
        return Err(Refusal::Cut);
    }
    let kind = kind_at(bytes, at)?;
    Ok(Some(found_at(bytes, at, kind)))
}

// Where reading goes on: behind the record, and at the same offset at the end and beside a refusal.
pub fn next(seen: Result<Option<Found>, Refusal>, cursor: Cursor) -> Cursor
    ensures { result ≡ (answer_of cursor.offset seen).next }
{
    match seen {
        Ok(Some(found)) => found.next,
        Ok(None) | Err(_) => cursor,
    }
}

// No record: the end, or a refusal.
fn nothing(number: u32, cursor: Cursor) -> Answer
    ensures { result ≡ nothing number cursor.offset }
{
    Answer {
        number,
        kind: 0,
        next: cursor,
        channel: 0,
        word: 0,
        stamp: 0,
    }
}

// What was seen at an offset, in numbers.
pub fn answer_of(cursor: Cursor, seen: Result<Option<Found>, Refusal>) -> Answer
    ensures { result ≡ answer_of cursor.offset seen }
{
    match seen {
        Ok(Some(found)) => Answer {
            number: 0,
            kind: u32::from(found.kind),
            next: found.next,
            channel: found.channel,
            word: found.word,
            stamp: found.stamp,
        },
        Ok(None) => nothing(0, cursor),
        Err(refusal) => nothing(u32::from(refusal), cursor),
    }
}

// Puts the words from an index on into the first lent words.
fn put_words(bytes: &[u8], from: usize, lent: &mut [u32], count: usize)
    requires count_in_bounds { from + whole * count ≤ length bytes.now }
    requires count_in_bounds_2 { count ≤ length lent.old }
    ensures { lent.new ≡ sets lent.old 0 (words_at bytes.now from count) }
{
    for i in 0..count {
        lent[i] = word_at(bytes, from + WHOLE * i);
    }
}

// Puts words of 0, commands that stop, into the lent words from an index on, as far as an image fills them.
fn put_stops(lent: &mut [u32], from: usize)
    requires from_le_lent_words { from ≤ lent_words }
    requires lent_words_in_bounds { lent_words ≤ length lent.old }
    ensures { lent.new ≡ sets lent.old from (replicate (lent_words - from) 0) }
{
    lent[from..LENT_WORDS].fill(0);
}

// Reads the record at an offset: an image's commands go into the first lent words, and stops behind those of an old one.
pub fn read(bytes: &[u8], cursor: Cursor, lent: &mut [u32]) -> Result<Option<Found>, Refusal>
    ensures answer { answer_of cursor.offset result ≡ read_at bytes.now cursor.offset (length lent.old) }
    ensures after { lent.new ≡ lent_after bytes.now cursor.offset lent.old }
{
    let Some(found) = look(bytes, cursor)? else {
        return Ok(None);
    };
    let count = found.kind.commands();
    if count == 0 {
        return Ok(Some(found));
    }
    if lent.len() < LENT_WORDS {
        return Err(Refusal::NoRoom);
    }
    let at = cursor.offset;
    put_words(bytes, at + HALF + HALF + HALF, lent, count);
    put_stops(lent, count);
    Ok(Some(found))
}
