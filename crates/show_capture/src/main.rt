// Shows a capture. Standard input has its bytes, of any length. One line is written for each record, all numbers decimal:
// `0 KIND NEXT CHANNEL WORD STAMP` for an arrival, `0 KIND NEXT CHANNEL` and the commands as they fill the lent words for an image; and last
// `0 0 OFFSET` at the end, or `NUMBER 0 OFFSET` at a bad record.
#![tactic(auto)]

ghost use Rattle.std.specs.Prelude.{◌≡◌, ◌≤◌, length};
ghost use Rattle.capture.specs.Format.{lent_words};
ghost use Rattle.show_capture.specs.Moved.{Moved};
ghost use Rattle.show_capture.specs.declared.TheConstants.{TEXT};

use capture::Cursor;
use capture::kinds::{LENT_WORDS, LONGEST};
use std::io::{Read, Write};

// The bytes at hand: room for two of the longest records.
const ROOM: usize = 2 * LONGEST;

// The room for the text that waits.
const TEXT: usize = 65536;

// The most that a number takes, with the character behind it.
const NUMBER: usize = 21;

// The text that waits to be written, in the first `long` bytes.
#[derive(Drop)]
struct Waiting {
    text: [u8; TEXT],
    long: usize,
    ghost fits: { long ≤ TEXT },
}

impl Waiting {
    // Writes the text that waits.
    fn write(&self, out: &mut impl Write) {
        streams::write_all(out, &self.text[..self.long]);
    }

    // Adds a number and the character behind it, and writes what waits first where it leaves no room for them.
    fn put(&mut self, out: &mut impl Write, shown: u64, behind: u8) {
        let mut at = self.long;
        if TEXT - at < NUMBER {
            self.write(out);
            at = 0;
        }
        let mut digits = [0u8; 20];
        let count = streams::decimal(shown, &mut digits);
        self.text[at..at + count].copy_from_slice(&digits[..count]);
        self.text[at + count] = behind;
        self.long = at + count + 1;
    }

    // Adds numbers of a line; `more` says that others follow.
    fn put_numbers<T: Copy + Into<u64>>(
        &mut self,
        out: &mut impl Write,
        numbers: &[T],
        more: bool,
    ) {
        for (i, shown) in numbers.iter().enumerate() {
            self.put(
                out,
                (*shown).into(),
                behind(!more && i + 1 == numbers.len()),
            );
        }
    }
}

// The character behind a number: the line ends behind its last one.
fn behind(last: bool) -> u8 {
    if last { b'\n' } else { b' ' }
}

// Reads what stands at an offset, adds its line, with an image's commands as they fill the lent words, and answers the offset behind a
// record. A record moves the offset on, and not past the end.
fn show_at(
    out: &mut impl Write,
    bytes: &[u8],
    at: usize,
    base: u64,
    lent: &mut [u32],
    waiting: &mut Waiting,
) -> Option<usize>
    requires { length lent.old ≡ lent_words }
    ensures { Moved (length bytes.now) at result }
{
    let cursor = Cursor { offset: at };
    let seen = capture::reading::read(bytes, cursor, lent);
    let line = capture_lines::line_of(base, capture::reading::answer_of(cursor, seen));
    match seen {
        Ok(Some(found)) => {
            let commands = &lent[..found.kind.lent()];
            waiting.put_numbers(out, line.numbers(), !commands.is_empty());
            waiting.put_numbers(out, commands, false);
            Some(found.next.offset)
        }
        Ok(None) | Err(_) => {
            waiting.put_numbers(out, line.numbers(), false);
            None
        }
    }
}

// How far a run of lines went: the offset of the bytes that are left, and whether the reading ended.
#[derive(Clone, Copy)]
struct Progress {
    at: usize,
    ended: bool,
}

// Adds lines while the longest record would lie within the bytes, and where these are the last ones to the end of the reading. It goes on by what a
// record says of its length, so no index is counted.
fn show_some(
    out: &mut impl Write,
    bytes: &[u8],
    last: bool,
    base: u64,
    lent: &mut [u32],
    waiting: &mut Waiting,
) -> Progress
    requires { length lent.old ≡ lent_words }
    ensures { result.at ≤ length bytes.now }
{
    let mut at = 0;
    while last || LONGEST <= bytes.len() - at {
        let Some(next) = show_at(out, bytes, at, base, lent, waiting) else {
            return Progress { at, ended: true };
        };
        at = next;
    }
    Progress { at, ended: false }
}

// What is at hand between two reads of the input: so many bytes, which begin `base` bytes into the capture. They lie at the front of a buffer of
// a fixed size, since a program asks for no memory.
#[derive(Clone, Copy)]
struct Held {
    count: usize,
    base: u64,
    ended: bool,
}

// Reads more of the input, adds the lines of what is at hand, and keeps the rest.
fn show_more(
    input: &mut impl Read,
    out: &mut impl Write,
    bytes: &mut [u8],
    held: Held,
    lent: &mut [u32],
    waiting: &mut Waiting,
) -> Held
    requires lent_len { length lent.old ≡ lent_words }
    requires holds { held.count ≤ length bytes.old }
    ensures { result.count ≤ length bytes.old }
{
    let count = held.count;
    let count = count + streams::read_full(input, &mut bytes[count..]);
    let last = count < bytes.len();
    let base = held.base;
    let shown = show_some(out, &bytes[..count], last, base, lent, waiting);
    bytes.copy_within(shown.at..count, 0);
    Held {
        count: count - shown.at,
        base: base.wrapping_add(shown.at as u64),
        ended: shown.ended,
    }
}

// The loop has more turns than a run uses up. `streams::each_part` hands on parts of 4,096 bytes; here a record of up to 65,537 is read in one piece.
fn show_input(
    input: &mut impl Read,
    out: &mut impl Write,
    bytes: &mut [u8],
    lent: &mut [u32],
    waiting: &mut Waiting,
)
    requires { length lent.old ≡ lent_words }
{
    let mut held = Held {
        count: 0,
        base: 0,
        ended: false,
    };
    for _ in 0..u64::MAX {
        if held.ended {
            break;
        }
        held = show_more(input, out, bytes, held, lent, waiting);
    }
    waiting.write(out);
}

fn main(rt: HostRuntime) {
    let mut bytes = [0u8; ROOM];
    let mut lent = [0u32; LENT_WORDS];
    let mut waiting = Waiting {
        text: [0; TEXT],
        long: 0,
    };
    show_input(
        &mut rt.stdin(),
        &mut rt.stdout(),
        &mut bytes,
        &mut lent,
        &mut waiting,
    );
}
