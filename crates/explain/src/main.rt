// Why wasn't it there? The arguments are COUNT, the number of channels, and PLACE, the place of an arrival in the list, from 1. Standard input
// has the call items since power-up, as `replay` takes them. Two lines are written: the answer's number, the reason and what stands beside it;
// and one sentence.
#![tactic(auto)]

ghost use Rattle.std.specs.Prelude.{◌≡◌};
ghost use Rattle.explain.specs.Number.{number_in};

use following::course::Reason;
use reasons::{MOST_ITEMS, Refusal};
use sessions::ITEM_BYTES;
use std::env::Env;
use std::io::{Read, Write};
use text::token::Token;

// The bytes of the longest list, and one more by which a longer one is told.
const ROOM: usize = ITEM_BYTES * MOST_ITEMS + 1;

// An argument's text read as a decimal number.
fn number_in(text: &[u8]) -> Token
    ensures { result ≡ number_in text.now }
{
    let mut token = text::token::none();
    for byte in text {
        token = text::token::token_byte(10, token, *byte);
    }
    token
}

// An argument; one that is missing reads as an empty one.
fn argument(env: &impl Env, index: usize) -> Token {
    let mut buffer = streams::buffer();
    let n = streams::argument(env, index, &mut buffer);
    number_in(&buffer[..n])
}

fn is_number(token: Token) -> bool {
    token.begun && !token.wrong
}

// One piece of a line, in a write of its own; the next piece is tried where this one fails, as no format does.
fn print(out: &mut impl Write, text: &str) {
    streams::write_all(out, text.as_bytes());
}

fn print_number(out: &mut impl Write, number: u32) {
    streams::print_decimal(out, u64::from(number));
}

fn name(reason: Reason) -> &'static str {
    match reason {
        Reason::NoReason => "none",
        Reason::RefusedBy(_) => "refused",
        Reason::ReceiverOff => "receiver-off",
        Reason::FilteredOut => "filtered",
        Reason::DroppedOnFull => "dropped",
        Reason::ListedAlready => "already-listed",
        Reason::StillHeld => "held",
        Reason::ReadAt(_) => "read",
        Reason::ClearedAt(_) => "cleared",
        Reason::OverwrittenAt(_) => "overwritten",
    }
}

// A sentence that ends in a number.
fn print_with(out: &mut impl Write, text: &str, number: u32) {
    print(out, text);
    print_number(out, number);
    print(out, ".");
}

// What a refusal of the question means.
fn print_refusal(out: &mut impl Write, refusal: Refusal) {
    print(
        out,
        match refusal {
            Refusal::TooShort => "The working memory is too short for that many channels.",
            Refusal::NoCount => "The channel count must be 1 to 12.",
            Refusal::NoArrival => "There is no arrival at that place of the list.",
            Refusal::TooManyItems => "The list has more than 4096 calls.",
            Refusal::NoCall => "An item of the list is no call, or the last one is cut short.",
        },
    );
}

// What a reason means. In mailbox mode the word's entry is its index in the list.
fn print_meaning(out: &mut impl Write, reason: Reason) {
    match reason {
        Reason::NoReason => print(out, "There is no reason."),
        Reason::RefusedBy(number) => {
            print_with(out, "The arrival was refused with number ", number)
        }
        Reason::ReceiverOff => print(
            out,
            "The receiver of the channel was off, so the word was ignored.",
        ),
        Reason::FilteredOut => {
            print(
                out,
                "Match was on and the index of the word was not in the match set, so the word was filtered out.",
            )
        }
        Reason::DroppedOnFull => {
            print(
                out,
                "The receive FIFO was full and bounded, so the entry of the word was dropped.",
            )
        }
        Reason::ListedAlready => {
            print(
                out,
                "The index of the word was already listed, so it was not listed again.",
            )
        }
        Reason::StillHeld => print(
            out,
            "The entry of the word is still held in the receive FIFO.",
        ),
        Reason::ReadAt(place) => {
            print_with(
                out,
                "The entry of the word was read by the call at place ",
                place,
            )
        }
        Reason::ClearedAt(place) => {
            print_with(
                out,
                "The entry of the word was cleared by the call at place ",
                place,
            )
        }
        Reason::OverwrittenAt(place) => {
            print_with(
                out,
                "The entry of the word was overwritten by the call at place ",
                place,
            )
        }
    }
}

// The answer's number, the name of a reason and what stands beside it, as a line.
fn print_named(out: &mut impl Write, number: u32, reason: Reason) {
    print_number(out, number);
    print(out, " ");
    print(out, name(reason));
    print(out, " ");
    print_number(out, reasons::beside(reason));
    print(out, "\n");
}

// The two lines of an answer.
fn print_answer(out: &mut impl Write, answer: Result<Reason, Refusal>) {
    match answer {
        Ok(reason) => {
            print_named(out, 0, reason);
            print_meaning(out, reason);
        }
        Err(refusal) => {
            print_named(out, refusal.into(), Reason::NoReason);
            print_refusal(out, refusal);
        }
    }
    print(out, "\n");
}

// Room for the list.
fn room() -> [u8; ROOM] {
    [0; ROOM]
}

// Explains a list of items.
fn explain_list(out: &mut impl Write, count: u32, bytes: &[u8], place: u32) {
    let mut mem = sessions::memory();
    print_answer(out, reasons::explain(count, bytes, place, &mut mem));
}

// Explains the list on standard input.
fn explain_input(input: &mut impl Read, out: &mut impl Write, count: u32, place: u32) {
    let mut bytes = room();
    let n = streams::read_full(input, &mut bytes);
    explain_list(out, count, &bytes[..n], place);
}

fn main(rt: HostRuntime) {
    let count = argument(&rt, 1);
    if !is_number(count) {
        streams::write_all(
            &mut rt.stderr(),
            b"explain: the first argument, COUNT, is no number\n",
        );
        return;
    }
    let place = argument(&rt, 2);
    if !is_number(place) {
        streams::write_all(
            &mut rt.stderr(),
            b"explain: the second argument, PLACE, is no number\n",
        );
        return;
    }
    explain_input(
        &mut rt.stdin(),
        &mut rt.stdout(),
        text::token::token_number(count),
        text::token::token_number(place),
    );
}
