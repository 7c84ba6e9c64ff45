// Shows ARINC 429 words taken apart. Standard input has them in hexadecimal, one to a line, as `word_text::hex_word` reads a line. A line of blanks
// alone is passed over, and one that is no word is named by its number.
#![tactic(auto)]

ghost use Rattle.std.specs.Prelude.{◌≤◌, length};

use std::io::Write;
use word_text::Line;

// The most bytes of a line that may be a word.
const ROOM: usize = 4096;

// One piece of a line, in a write of its own; the next piece is tried where this one fails, as no format does.
fn print(out: &mut impl Write, text: &[u8]) {
    streams::write_all(out, text);
}

fn print_number(out: &mut impl Write, number: u32) {
    streams::print_decimal(out, u64::from(number));
}

// A label in octal, three digits, as it is listed.
fn print_label(out: &mut impl Write, label: u8) {
    print(
        out,
        &[b'0' + label / 64, b'0' + label / 8 % 8, b'0' + label % 8],
    );
}

// One line: the word, its label in octal, SDI, index and parity, and the word as it goes out with parity on.
fn show(out: &mut impl Write, word: u32) {
    print(out, b"word ");
    streams::print_hex(out, word);
    print(out, b"  label ");
    print_label(out, word::label(word));
    print(out, b"  SDI ");
    print_number(out, word::sdi(word));
    print(out, b"  index ");
    print_number(out, word::index(word));
    if word::is_in_error(word) {
        print(out, b"  parity error  as sent ");
    } else {
        print(out, b"  parity right  as sent ");
    }
    streams::print_hex(out, word::with_odd_parity(word));
    print(out, b"\n");
}

// The line that is being read: its number from 1, its bytes as far as they are kept, and whether it has more than there is room for: then it is
// no word.
#[derive(Drop)]
struct Reading {
    number: u64,
    bytes: [u8; ROOM],
    kept: usize,
    longer: bool,
    ghost in_room: { kept ≤ length bytes },
}

fn begun() -> Reading {
    Reading {
        number: 1,
        bytes: [0; ROOM],
        kept: 0,
        longer: false,
    }
}

impl Reading {
    fn say_no_word(&self, out: &mut impl Write) {
        print(out, b"line ");
        streams::print_decimal(out, self.number);
        print(out, b": no word\n");
    }

    // The line ends here: it is shown, or named.
    fn end(&self, out: &mut impl Write) {
        if self.longer {
            self.say_no_word(out);
            return;
        }
        match word_text::hex_word(&self.bytes[..self.kept]) {
            Line::Word(word) => show(out, word),
            Line::NoWord => self.say_no_word(out),
            Line::Blank => {}
        }
    }

    // The next byte of the text.
    fn take(&mut self, out: &mut impl Write, byte: u8) {
        if byte == b'\n' {
            self.end(out);
            self.number = self.number.wrapping_add(1);
            self.kept = 0;
            self.longer = false;
        } else if self.kept == self.bytes.len() {
            self.longer = true;
        } else {
            self.bytes[self.kept] = byte;
            self.kept += 1;
        }
    }

    // A line may go on behind the end of a part of the text.
    fn take_all(&mut self, out: &mut impl Write, text: &[u8]) {
        for byte in text {
            self.take(out, *byte);
        }
    }
}

fn main(rt: HostRuntime) {
    let mut out = rt.stdout();
    let mut reading = begun();
    streams::each_part(&mut rt.stdin(), |text| reading.take_all(&mut out, text));
    reading.end(&mut out);
}
