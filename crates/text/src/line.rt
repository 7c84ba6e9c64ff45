// A line `WORD` or `WORD VALUE`, a byte after the other.
ghost use Rattle.std.specs.Prelude.{◌≡◌, ◌<◌};
ghost use Rattle.text.specs.Line.{ended, blanked, prefixed, word_byte, grown, value_byte, signed, opened, filled, taken, outcome, asked_by};

use crate::bytes;

// Where a line stands: before the word, in it, behind it, in the value, behind it, or wrong. A line holds any number here, and every one above 4 is
// wrong for good.
const BEFORE_WORD: u32 = 0;

const IN_WORD: u32 = 1;

const BEHIND_WORD: u32 = 2;

const IN_VALUE: u32 = 3;

const BEHIND_VALUE: u32 = 4;

const WRONG: u32 = 5;

// The digits that a word has at most.
const WORD_DIGITS: u32 = 8;

// A line as far as it was read: its place, whether `0x` or `-` was read, the digits of its field, its word, and the size of its value.
#[derive(Clone, Copy)]
pub struct Line {
    pub place: u32,
    pub mark: bool,
    pub digits: u32,
    pub word: u32,
    pub size: u32,
}

// What a line asks for: the reading of a word, or a number put into a word, by its sign and size.
#[derive(Clone, Copy)]
pub enum Asked {
    Read(u32),
    Encode(u32, bool, u32),
}

// The start of a line.
pub fn begun() -> Line
    ensures { result ≡ Rattle.text.specs.Line.begun }
{
    Line {
        place: BEFORE_WORD,
        mark: false,
        digits: 0,
        word: 0,
        size: 0,
    }
}

fn wrong() -> Line
    ensures { result ≡ Rattle.text.specs.Line.wrong }
{
    Line {
        place: WRONG,
        ..begun()
    }
}

// A field ends: it has a digit.
fn ended(at: Line, place: u32) -> Line
    ensures { result ≡ ended at place }
{
    if at.digits == 0 {
        return wrong();
    }
    Line { place, ..at }
}

fn blanked(at: Line) -> Line
    ensures { result ≡ blanked at }
{
    match at.place {
        IN_WORD => ended(at, BEHIND_WORD),
        IN_VALUE => ended(at, BEHIND_VALUE),
        _ => at,
    }
}

// The `x` of `0x`.
fn prefixed(at: Line, byte: u8) -> Line
    ensures { result ≡ prefixed at byte }
{
    if !at.mark && at.digits == 1 && at.word == 0 && matches!(byte, b'x' | b'X') {
        return Line {
            place: IN_WORD,
            mark: true,
            ..begun()
        };
    }
    wrong()
}

// A byte of the word.
fn word_byte(at: Line, byte: u8) -> Line
    ensures { result ≡ word_byte at byte }
{
    match bytes::digit(byte) {
        Some(digit) => {
            if at.digits < WORD_DIGITS {
                return Line {
                    place: IN_WORD,
                    digits: at.digits + 1,
                    word: at.word % 0x1000_0000 * 16 + digit,
                    size: 0,
                    ..at
                };
            }
            wrong()
        }
        None => prefixed(at, byte),
    }
}

// A number with one more digit.
fn grown(size: u32, digit: u32) -> u32
    requires { digit < 10 }
    ensures { result ≡ grown size digit }
{
    if size < 214_748_364 {
        return size * 10 + digit;
    }
    0x7FFF_FFFF
}

// A byte of the value.
fn value_byte(at: Line, byte: u8) -> Line
    ensures { result ≡ value_byte at byte }
{
    match bytes::digit(byte) {
        Some(digit) if digit < 10 => Line {
            place: IN_VALUE,
            digits: 1,
            size: grown(at.size, digit),
            ..at
        },
        _ => signed(at, byte),
    }
}

// The `-` before the digits of the value.
fn signed(at: Line, byte: u8) -> Line
    ensures { result ≡ signed at byte }
{
    if !at.mark && at.digits == 0 && byte == b'-' {
        return Line {
            place: IN_VALUE,
            mark: true,
            size: 0,
            ..at
        };
    }
    wrong()
}

// The value begins with no sign and no digit.
fn opened(at: Line) -> Line
    ensures { result ≡ opened at }
{
    if at.place == BEHIND_WORD {
        return Line {
            place: IN_VALUE,
            word: at.word,
            ..begun()
        };
    }
    at
}

fn filled(at: Line, byte: u8) -> Line
    ensures { result ≡ filled at byte }
{
    match at.place {
        BEFORE_WORD | IN_WORD => word_byte(at, byte),
        BEHIND_WORD | IN_VALUE => value_byte(opened(at), byte),
        _ => wrong(),
    }
}

// The line with one byte more.
#[tactic(auto, using(word::proofs::Branches::branches), unfolding(crate::specs::Line::taken))]
pub fn taken(at: Line, byte: u8) -> Line
    ensures { result ≡ taken at byte }
{
    if bytes::is_blank(byte) {
        return blanked(at);
    }
    filled(at, byte)
}

fn outcome(at: Line) -> Option<Asked>
    ensures { result ≡ outcome at }
{
    match at.place {
        BEHIND_WORD => Some(Asked::Read(at.word)),
        BEHIND_VALUE => Some(Asked::Encode(at.word, at.mark, at.size % 0x8000_0000)),
        _ => None,
    }
}

// What the line asks for, at its end, if anything.
#[tactic(auto, unfolding(crate::specs::Line::asked_by))]
pub fn asked_by(at: Line) -> Option<Asked>
    ensures { result ≡ asked_by at }
{
    outcome(blanked(at))
}
