// What a program reads, writes and is asked: bytes from a reader, bytes and numbers to a writer, and its arguments. Only `each_part` requires
// anything, and none gives up: a read that fails counts as the end of the input, a write that fails as done in part, and an argument
// that is missing as empty.
#![tactic(auto)]

ghost use Rattle.std.specs.Prelude.{◌≡◌, ◌-◌, ◌^◌, ◌≤◌, IsTrue, decimal as decimal_text, drop, length, take};
ghost use Rattle.std.specs.Fn.{CalledAt};
ghost use Rattle.std.specs.Io.KnownBytes.{Appends, Consumes};
ghost use Rattle.streams.specs.Digits.{hex_glyph, hex_text};
ghost use Rattle.streams.specs.Parts.{TakesParts};

use std::env::Env;
use std::io::{Read, Write};

// Room for a part of the input, all zeros.
pub fn buffer() -> [u8; 4096]
    ensures { length result ≡ 4096 }
{
    [0; 4096]
}

// Reads until the buffer is full, the input ends or a read fails, and answers how many bytes stand at the buffer's start.
// It goes on by what a read gave, so no index is counted.
pub fn read_full<R: Read>(input: &mut R, buffer: &mut [u8]) -> usize
    ensures within { result ≤ length buffer.new }
    ensures part { result ≡ length (take result buffer.new) }
    ensures taken { Consumes (R.remaining input.old) (R.remaining input.new) (take result buffer.new) }
{
    let mut done = 0;
    while done < buffer.len() {
        match input.read(&mut buffer[done..]) {
            Ok(count) => {
                if count == 0 {
                    break;
                }
                done += count;
            }
            Err(_) => break,
        }
    }
    done
}

// Reads the input to its end, a full buffer at a time, and calls `take` with each part; the last is shorter, perhaps empty. It has to be callable
// with any part. The loop has more turns than a run uses up.
pub fn each_part<R: Read, F: FnMut(&[u8])>(input: &mut R, mut take: F)
    requires { F.IsAlwaysCallable take }
    ensures { TakesParts (CalledAt F.FnMut) 4096 (2 ^ 64 - 1) (R.remaining input.old) (R.remaining input.new) take }
{
    let mut room = buffer();
    for _ in 0..u64::MAX {
        let n = read_full(input, &mut room);
        take(&room[..n]);
        if n < room.len() {
            break;
        }
    }
}

// A write answers true or false, and not why it failed: no program that calls it goes another way by it.

// Writes all of the bytes and answers true, or stops at the first write that takes none or fails, with some of them written.
pub fn write_all<W: Write>(out: &mut W, bytes: &[u8]) -> bool
    ensures { IsTrue result → Appends (W.contents out.old) (W.contents out.new) bytes.now }
{
    out.write_all(bytes).is_ok()
}

// Puts a number's decimal digits at the start of the room, leaves what is behind them, and answers how many there are.
pub fn decimal(number: u64, digits: &mut [u8; 20]) -> usize
    ensures within { result ≤ 20 }
    ensures part { result ≡ length (take result digits.new) }
    ensures text { take result digits.new ≡ decimal_text number }
    ensures rest { drop result digits.new ≡ drop result digits.old }
{
    let mut buffer = itoa::Buffer::new();
    let text = buffer.format(number).as_bytes();
    let count = text.len();
    digits[..count].copy_from_slice(text);
    count
}

// Writes a number in decimal, and answers as `write_all` does.
pub fn print_decimal<W: Write>(out: &mut W, number: u64) -> bool
    ensures { IsTrue result → Appends (W.contents out.old) (W.contents out.new) (decimal_text number) }
{
    let mut buffer = itoa::Buffer::new();
    write_all(out, buffer.format(number).as_bytes())
}

fn hex_digit(digit: u32) -> u8
    requires { digit ≤ 15 }
    ensures { result ≡ hex_glyph digit }
{
    if digit < 10 {
        b'0' + digit as u8
    } else {
        b'a' - 10 + digit as u8
    }
}

// The eight hexadecimal digits of a number, in lower case.
pub fn hex(number: u32) -> [u8; 8]
    ensures { result ≡ hex_text 8 number }
{
    let mut digits = [0u8; 8];
    let mut rest = number;
    for place in (0..digits.len()).rev() {
        digits[place] = hex_digit(rest % 16);
        rest /= 16;
    }
    digits
}

// Writes a number in hexadecimal, all eight digits, and answers as `write_all` does.
pub fn print_hex<W: Write>(out: &mut W, number: u32) -> bool
    ensures { IsTrue result → Appends (W.contents out.old) (W.contents out.new) (hex_text 8 number) }
{
    write_all(out, &hex(number))
}

// Puts an argument at the start of the buffer and answers its length: 0 where it is missing, or longer than the buffer. Argument 0 is the
// program's name.
pub fn argument<E: Env>(env: &E, index: usize, buffer: &mut [u8]) -> usize
    ensures within { result ≤ length buffer.new }
    ensures part { result ≡ length (take result buffer.new) }
{
    match env.arg(index, buffer) {
        Ok(count) => count,
        Err(_) => 0,
    }
}
