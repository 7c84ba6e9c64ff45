// Judges a bench card. Standard input has the parity, the words of both RAMs, one to a line, and then lines `async STEP WORD` and `out FORM X Y Z`, as
// `card_text` reads them. One line is written: the verdict, or what is wrong with the first wrong line.
#![tactic(auto)]

use bench_card::Verdict;
use card_text::faults::Fault;
use card_text::judging::CardError;
use card_text::{judging, reading, room};
use schedule::Output;
use std::io::Write;

// One piece of a line, in a write of its own; the next piece is tried where this one fails, as no format does.
fn print(out: &mut impl Write, text: &[u8]) {
    streams::write_all(out, text);
}

fn print_number(out: &mut impl Write, number: u32) {
    streams::print_decimal(out, u64::from(number));
}

// What the rules give at a place, as its four numbers.
fn print_due(out: &mut impl Write, place: u32, due: Output) {
    print(out, b"0 ");
    print_number(out, place);
    for number in schedule::values(due) {
        print(out, b" ");
        print_number(out, number);
    }
    print(out, b"\n");
}

fn print_verdict(out: &mut impl Write, verdict: Verdict) {
    match verdict {
        Verdict::Yes => print(out, b"0 yes\n"),
        Verdict::Differs(place, due) => print_due(out, place, due),
        Verdict::Nothing(place) => {
            print(out, b"0 ");
            print_number(out, place);
            print(out, b" nothing\n");
        }
    }
}

// What is wrong with a line, behind its number.
fn print_fault(out: &mut impl Write, fault: Fault) {
    match fault {
        Fault::NoParity => print(out, b": no parity\n"),
        Fault::NoWord => print(out, b": no word\n"),
        Fault::NoEntry => print(out, b": no async word and no output\n"),
        Fault::NoRoom => {
            print(out, b": no room for more than ");
            streams::print_decimal(out, room::ASYNC_WORDS as u64);
            print(out, b" async words\n");
        }
    }
}

// What is said of a card, as a line.
fn print_answer(out: &mut impl Write, answer: Result<Verdict, CardError>) {
    match answer {
        Ok(verdict) => print_verdict(out, verdict),
        Err(CardError::Refused(refusal)) => {
            print_number(out, refusal.into());
            print(out, b" 0\n");
        }
        Err(CardError::WrongLine(fault, line)) => {
            print(out, b"line ");
            streams::print_decimal(out, line);
            print_fault(out, fault);
        }
    }
}

fn main(rt: HostRuntime) {
    let mut words = [0u32; room::WORDS];
    let mut asyncs = [0u32; room::ASYNCS];
    let mut outputs = [0u32; room::OUTPUTS];
    let mut at = reading::begun();
    streams::each_part(&mut rt.stdin(), |text| {
        at = reading::text_taken(&mut words, &mut asyncs, &mut outputs, at, text);
    });
    at = reading::finished(&mut words, &mut asyncs, &mut outputs, at);
    print_answer(
        &mut rt.stdout(),
        judging::answered(&words, &asyncs, &outputs, at),
    );
}
