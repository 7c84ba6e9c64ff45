// Readings for an instructor. The argument is the file of the label list: numbers separated by blanks and line ends, `LABEL KIND DIVISOR` in
// turn, the label in octal, the others decimal. Standard input has a line for each word: `WORD`, hexadecimal, is read; `WORD VALUE`, with a
// whole decimal number, is encoded. One line is written for each.
#![tactic(auto)]

ghost use Rattle.std.specs.Prelude.{◌≡◌, T, IfOk, IsUtf8};
ghost use Rattle.std.specs.Float.Ieee as Ieee;
ghost use Rattle.std.specs.Float.{binary64};
ghost use Rattle.readings.specs.Units.{scaled};
ghost use Rattle.console.specs.Labels.{base_at, listed, held};

use reading_fields::signs;
use readings::reading::Reading;
use readings::refusals::Refusal;
use std::fs::{File, Files};
use std::io;
use std::io::{Cursor, Error, ErrorKind, Read, Write};
use text::line::{Asked, Line};
use text::list::Listed;

// The room for the label list: 16,384 entries.
fn room() -> [u32; 49152] {
    [0; 49152]
}

// One piece of a line, in a write of its own; the next piece is tried where this one fails, as no format does.
fn print(out: &mut impl Write, text: &[u8]) {
    streams::write_all(out, text);
}

fn print_number(out: &mut impl Write, number: u32) {
    streams::print_decimal(out, u64::from(number));
}

// The digits of a part below one, with the point before them; none where nothing is left.
fn print_part(out: &mut impl Write, part: u32) {
    if part == 0 {
        return;
    }
    print(out, b".");
    let mut rest = part;
    for _ in 0..readings::units::DIGITS {
        if rest == 0 {
            break;
        }
        let next = readings::units::next(rest);
        streams::print_decimal(out, u64::from(next.digit));
        rest = next.rest;
    }
}

// A number in units, exactly: all its digits, which no format of an f64 promises.
fn print_units(out: &mut impl Write, units: f64)
    requires { T (Ieee.in_signed binary64 63 (scaled units)) }
{
    let count = readings::units::count(units);
    let size = count.unsigned_abs();
    let ths = u64::from(readings::units::THS);
    if signs::is_minus(count) {
        print(out, b"-");
    }
    streams::print_decimal(out, size / ths);
    print_part(out, (size % ths) as u32);
}

fn print_refused(out: &mut impl Write, refusal: Refusal) {
    print(out, b"refused ");
    print_number(out, refusal.into());
}

// What a word reads as.
fn print_reading(out: &mut impl Write, list: &[u32], word: u32) {
    match readings::reading::read(list, word) {
        Ok(Reading::Binary(units)) => {
            print(out, b"binary ");
            print_units(out, units);
        }
        Ok(Reading::Decimal(value)) => {
            print(out, b"decimal ");
            if signs::is_minus(value.into()) {
                print(out, b"-");
            }
            print_number(out, value.unsigned_abs());
        }
        Ok(Reading::Bits(field)) => {
            print(out, b"bits ");
            print_number(out, field);
        }
        Err(refusal) => print_refused(out, refusal),
    }
}

// The word with a value in it.
fn print_encoded(out: &mut impl Write, list: &[u32], word: u32, value: i32) {
    match readings::encoding::encode(list, word, value) {
        Ok(made) => {
            print(out, b"word ");
            streams::print_hex(out, made);
        }
        Err(refusal) => print_refused(out, refusal),
    }
}

// The label in octal, three digits.
fn print_label(out: &mut impl Write, word: u32) {
    let label = word::label(word);
    let digits = [
        b'0' + label / 64,
        b'0' + label / 8 % 8,
        b'0' + label % 8,
        b' ',
    ];
    print(out, &digits);
}

// The line for one line of the input.
fn answer(out: &mut impl Write, list: &[u32], line: Line) {
    match text::line::asked_by(line) {
        Some(Asked::Read(word)) => {
            print_label(out, word);
            print_reading(out, list, word);
        }
        Some(Asked::Encode(word, minus, size)) => {
            print_label(out, word);
            print_encoded(
                out,
                list,
                word,
                reading_fields::signs::joined(minus, size % 0x8000_0000),
            );
        }
        None => {
            print(out, b"no word");
        }
    }
    print(out, b"\n");
}

// One byte more of a line, if one has begun: its end is answered.
fn take(out: &mut impl Write, list: &[u32], line: Option<Line>, byte: u8) -> Option<Line> {
    let line = line.unwrap_or(text::line::begun());
    if byte == b'\n' {
        answer(out, list, line);
        None
    } else {
        Some(text::line::taken(line, byte))
    }
}

fn take_all(out: &mut impl Write, list: &[u32], line: Option<Line>, text: &[u8]) -> Option<Line> {
    let mut line = line;
    for byte in text {
        line = take(out, list, line, *byte);
    }
    line
}

// Answers the lines of the input; a last line without a line end counts.
fn answer_all(input: &mut impl Read, out: &mut impl Write, list: &[u32]) {
    let mut read = None;
    streams::each_part(input, |text| {
        read = take_all(out, list, read, text);
    });
    if let Some(line) = read {
        answer(out, list, line);
    }
}

// The base of the number at a place of the list: labels are octal.
fn base(count: usize) -> u32
    ensures { result ≡ base_at count }
{
    if count % 3 == 0 {
        return 8;
    }
    10
}

// The bytes of a text, in turn.
fn list_all(list: &mut [u32], at: Listed, text: &[u8]) -> Listed
    ensures answer { result ≡ listed list.old at text.now }
    ensures after { list.new ≡ held list.old at text.now }
{
    let mut at = at;
    for byte in text {
        let count = at.count;
        at = text::list::list_byte(list, base(count), at, *byte);
    }
    at
}

// The numbers of the file.
fn read_list(list: &mut [u32], file: &mut impl Read) -> Listed {
    let mut at = text::list::begun();
    streams::each_part(file, |text| {
        at = list_all(list, at, text);
    });
    text::list::stored(list, at)
}

// Opens the file of that name for reading. std opens names in UTF-8 alone: another name is refused.
fn open<F: Files>(files: &F, name: &[u8]) -> io::Result<F::File>
    ensures { IfOk result (λ _. IsUtf8 name.now) }
{
    match std::str::from_utf8(name) {
        Ok(path) => File::open(files, path),
        Err(_) => Err(Error::new(ErrorKind::InvalidFilename, "the name is no text in UTF-8")),
    }
}

// Writes a line: what failed, a colon and why, in the system's words, without the number that std writes behind them.
fn fail<W: Write>(out: &mut W, what: &[u8], error: &Error) {
    let mut text = Cursor::new([0u8; 256]);
    let _ = write!(text, "{error}");
    let count = text.position().min(256) as usize;
    let bytes = text.into_inner();
    streams::write_all(out, what);
    streams::write_all(out, b": ");
    streams::write_all(out, words(&bytes[..count]));
    streams::write_all(out, b"\n");
}

// The words of a text before the number of the system's error.
fn words(text: &[u8]) -> &[u8] {
    match std::str::from_utf8(text) {
        Ok(text) => match text.split_once(" (os error ") {
            Some((words, _)) => words.as_bytes(),
            None => text.as_bytes(),
        },
        Err(_) => text,
    }
}

// The numbers of the file of that name, which is closed again.
fn list_in(files: &impl Files, name: &[u8], list: &mut [u32]) -> io::Result<Listed> {
    let mut file = open(files, name)?;
    Ok(read_list(list, &mut file))
}

fn answer_by(
    input: &mut impl Read,
    out: &mut impl Write,
    errors: &mut impl Write,
    list: &mut [u32],
    listed: Listed,
) {
    let count = listed.count;
    if listed.full {
        streams::write_all(
            errors,
            b"console: more than 16384 entries in the label list\n",
        );
        return;
    }
    if count <= list.len() {
        answer_all(input, out, &list[..count]);
    }
}

fn main(rt: HostRuntime) {
    let mut path = streams::buffer();
    let length = streams::argument(&rt, 1, &mut path);
    let mut list = room();
    match list_in(&rt, &path[..length], &mut list) {
        Ok(listed) => {
            let mut out = rt.stdout();
            let mut errors = rt.stderr();
            answer_by(&mut rt.stdin(), &mut out, &mut errors, &mut list, listed);
        }
        Err(error) => fail(&mut rt.stderr(), &path[..length], &error),
    }
}
