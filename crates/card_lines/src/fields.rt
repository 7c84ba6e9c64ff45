// The fields of a line, and what they say.
ghost use Rattle.std.specs.Prelude.{◌≡◌};
ghost use Rattle.card_lines.specs.Fields.{named, begun, reading_byte, takes_word, as_word, as_number, value_of, more, is_name, valued, unvalued, field_ended, closed, taken, entry_of, said};

use crate::decimal;
use crate::decimal::Decimal;
use text::line::{Asked, Line};
use text::{bytes, line};

// The names that a line may begin with, as `named` counts their bytes. A name is one number, since a line's state asks for no memory.
const ASYNC: u64 = 0x0161_7379_6E63;

const OUT: u64 = 0x016F_7574;

// A name with no byte, the least with six bytes or more, and what stands for all of these.
const NO_NAME: u64 = 1;

const LONG: u64 = 0x0100_0000_0000;

const TOO_LONG: u64 = 0x0200_0000_0000;

// More fields than any line has.
const TOO_MANY: u32 = 6;

// The fields that have ended: how many, the bytes of the first, whether one is no number, and the last four numbers. `wrong` stands beside them,
// since a name is no number either and the numbers behind it count.
#[derive(Clone, Copy)]
pub struct Ended {
    pub count: u32,
    pub name: u64,
    pub wrong: bool,
    pub a: u32,
    pub b: u32,
    pub c: u32,
    pub d: u32,
}

// The field that is being read, as a word and as a number; `inside` where it has begun. What stands in it before that counts too, so it is no option.
#[derive(Clone, Copy)]
pub struct Reading {
    pub inside: bool,
    pub word: Line,
    pub number: Decimal,
}

// A line as far as it was read.
#[derive(Clone, Copy)]
pub struct Fields {
    pub ended: Ended,
    pub reading: Reading,
}

// What a line says: nothing; a word, or the parity; an async word with its step; an output; or none of these. Blank and none
// are two cases, since a blank line is passed over and the other is a fault.
#[derive(Clone, Copy)]
pub enum Entry {
    Blank,
    Word(u32),
    Async(u32, u32),
    Out(u32, u32, u32, u32),
    NoEntry,
}

// No field is being read.
fn no_field() -> Reading
    ensures { result ≡ Rattle.card_lines.specs.Fields.no_field }
{
    Reading {
        inside: false,
        word: line::begun(),
        number: decimal::none(),
    }
}

// The start of a line.
pub fn begun() -> Fields
    ensures { result ≡ begun }
{
    let ended = Ended {
        count: 0,
        name: NO_NAME,
        wrong: false,
        a: 0,
        b: 0,
        c: 0,
        d: 0,
    };
    Fields {
        ended,
        reading: no_field(),
    }
}

// The name with one more byte.
fn named(name: u64, byte: u8) -> u64
    ensures { result ≡ named name byte }
{
    if name < LONG {
        return name * 256 + u64::from(byte);
    }
    TOO_LONG
}

// A byte of the first field is one of the name.
fn name_byte(ended: Ended, byte: u8) -> Ended
    ensures { result ≡ Rattle.card_lines.specs.Fields.name_byte ended byte }
{
    if ended.count == 0 {
        return Ended {
            name: named(ended.name, byte),
            ..ended
        };
    }
    ended
}

// The field that is read with one more byte.
fn reading_byte(reading: Reading, byte: u8) -> Reading
    ensures { result ≡ reading_byte reading byte }
{
    Reading {
        inside: true,
        word: line::taken(reading.word, byte),
        number: decimal::decimal_byte(reading.number, byte),
    }
}

// Whether the next field of a line is a word in hexadecimal: the first, and an async word behind its step.
fn takes_word(ended: Ended) -> bool
    ensures { result ≡ takes_word ended }
{
    ended.count == 0 || (ended.count == 2 && ended.name == ASYNC)
}

fn as_word(word: Line) -> Option<u32>
    ensures { result ≡ as_word word }
{
    match line::asked_by(word) {
        Some(Asked::Read(value)) => Some(value),
        _ => None,
    }
}

fn as_number(number: Decimal) -> Option<u32>
    ensures { result ≡ as_number number }
{
    if number.wrong {
        return None;
    }
    Some(number.value)
}

// The number that the field that is read says, if it says one.
fn value_of(ended: Ended, reading: Reading) -> Option<u32>
    ensures { result ≡ value_of ended reading }
{
    if takes_word(ended) {
        return as_word(reading.word);
    }
    as_number(reading.number)
}

// One more field.
fn more(count: u32) -> u32
    ensures { result ≡ more count }
{
    if count < TOO_MANY {
        return count + 1;
    }
    TOO_MANY
}

// Whether the first field is a name.
fn is_name(name: u64) -> bool
    ensures { result ≡ is_name name }
{
    name == ASYNC || name == OUT
}

// The fields with a number behind them.
fn valued(ended: Ended, value: u32) -> Ended
    ensures { result ≡ valued ended value }
{
    Ended {
        count: more(ended.count),
        a: ended.b,
        b: ended.c,
        c: ended.d,
        d: value,
        ..ended
    }
}

// The fields with one behind them that is no number: a name may stand first.
fn unvalued(ended: Ended) -> Ended
    ensures { result ≡ unvalued ended }
{
    Ended {
        count: more(ended.count),
        wrong: ended.count != 0 || !is_name(ended.name),
        a: 0,
        b: 0,
        c: 0,
        d: 0,
        ..ended
    }
}

// The field that is read ends.
fn field_ended(ended: Ended, reading: Reading) -> Ended
    ensures { result ≡ field_ended ended reading }
{
    match value_of(ended, reading) {
        Some(number) => valued(ended, number),
        None => unvalued(ended),
    }
}

// The fields at a blank or at the end of the line.
#[tactic(auto, unfolding(crate::specs::Fields::closed))]
fn closed(at: Fields) -> Ended
    ensures { result ≡ closed at }
{
    if at.reading.inside {
        return field_ended(at.ended, at.reading);
    }
    at.ended
}

// The line with one byte more.
#[tactic(auto, using(word::proofs::Branches::branches), unfolding(crate::specs::Fields::taken))]
pub fn taken(at: Fields, byte: u8) -> Fields
    ensures { result ≡ taken at byte }
{
    if bytes::is_blank(byte) {
        return Fields {
            ended: closed(at),
            reading: no_field(),
        };
    }
    Fields {
        ended: name_byte(at.ended, byte),
        reading: reading_byte(at.reading, byte),
    }
}

#[tactic(auto, using(word::proofs::Branches::branches), unfolding(crate::specs::Fields::entry_of))]
fn entry_of(fields: Ended) -> Entry
    ensures { result ≡ entry_of fields }
{
    if fields.count == 0 {
        return Entry::Blank;
    }
    if fields.wrong {
        return Entry::NoEntry;
    }
    if fields.name == ASYNC {
        if fields.count == 3 {
            return Entry::Async(fields.c, fields.d);
        }
        return Entry::NoEntry;
    }
    if fields.name == OUT {
        if fields.count == 5 {
            return Entry::Out(fields.a, fields.b, fields.c, fields.d);
        }
        return Entry::NoEntry;
    }
    if fields.count == 1 {
        return Entry::Word(fields.d);
    }
    Entry::NoEntry
}

// What the line says, at its end.
pub fn said(at: Fields) -> Entry
    ensures { result ≡ said at }
{
    entry_of(closed(at))
}
