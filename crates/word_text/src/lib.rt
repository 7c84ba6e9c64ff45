// Words as text, as people write them in hexadecimal: what a line says. Every function takes any bytes.
#![tactic(auto)]

ghost use Rattle.std.specs.Prelude.{◌≡◌};
ghost use Rattle.word_text.specs.Text.{blanks, digits, hex_value, prefix, word_of, behind_blanks, hex_word};

use text::bytes::{digit, is_blank};

// What a line of text is; a blank line is neither a word nor an error.
#[derive(Clone, Copy)]
pub enum Line {
    Word(u32),
    Blank,
    NoWord,
}

// How many blanks the text begins with.
fn blanks(text: &[u8]) -> usize
    ensures { result ≡ blanks text.now }
{
    text.iter()
        .position(|byte| !is_blank(*byte))
        .unwrap_or(text.len())
}

// Digits that a text begins with, eight at most: how many, and the number that they write.
#[derive(Clone, Copy)]
struct Number {
    count: usize,
    value: u32,
}

fn digits(text: &[u8]) -> Number
    ensures count { result.count ≡ digits 0 text.now }
    ensures value { result.value ≡ hex_value 0 0 text.now }
{
    let mut value = 0;
    for (count, byte) in text.iter().enumerate() {
        if count == 8 {
            return Number { count, value };
        }
        let Some(next) = digit(*byte) else {
            return Number { count, value };
        };
        value = value * 16 + next;
    }
    Number {
        count: text.len(),
        value,
    }
}

// The bytes of a `0x` that the text begins with: two, or none.
#[tactic(auto, using(word::proofs::Branches::branches), unfolding(crate::specs::Text::prefix))]
fn prefix(text: &[u8]) -> usize
    ensures { result ≡ prefix text.now }
{
    match text {
        [b'0', b'x' | b'X', ..] => 2,
        _ => 0,
    }
}

// A text that begins with a word's digits, and has blanks alone behind them.
fn word_of(text: &[u8]) -> Line
    ensures { result ≡ word_of text.now }
{
    let number = digits(text);
    let count = number.count;
    if count == 0 {
        return Line::NoWord;
    }
    if blanks(&text[count..]) == text.len() - count {
        return Line::Word(number.value);
    }
    Line::NoWord
}

// A text behind the blanks that it began with.
fn behind_blanks(text: &[u8]) -> Line
    ensures { result ≡ behind_blanks text.now }
{
    let skipped = prefix(text);
    word_of(&text[skipped..])
}

// What a line says, its line end left out: a word of one to eight hexadecimal digits, in either case, with or without `0x` before them and
// blanks around them; nothing but blanks; or anything else. The line is lent whole; `text::line` reads one that comes a byte after the other.
pub fn hex_word(line: &[u8]) -> Line
    ensures { result ≡ hex_word line.now }
{
    let skipped = blanks(line);
    if skipped == line.len() {
        return Line::Blank;
    }
    behind_blanks(&line[skipped..])
}
