// Three channels in one lent memory: words arrive on the first and are read, a schedule runs on the second, the third overruns.
#![tactic(auto)]

use arrival::Arrival;
use block::layout::WORDS;
use block::modes::{CIRCULAR, SCHEDULED};
use block::refusal::Refusal;
use channel_calls::calls::{
    ChannelCall, MemoryCall, ReadCall, ReceiveCall, Reply, Setting, SettingCall, StatusCall,
    TransmitCall,
};
use frame::layout::MODULE_WORDS;
use module::calls::Call;
use module::perform::perform;
use schedule::Output;
use std::io::Write;

// One piece of a line, in a write of its own; the next piece is tried where this one fails, as no format does.
fn print(out: &mut impl Write, text: &str) {
    streams::write_all(out, text.as_bytes());
}

// A number with a space before it: words in hexadecimal, all else in decimal.
fn number(out: &mut impl Write, n: u32) {
    print(out, " ");
    streams::print_decimal(out, u64::from(n));
}

fn word(out: &mut impl Write, n: u32) {
    print(out, " ");
    streams::print_hex(out, n);
}

fn show_output(out: &mut impl Write, output: Output) {
    match output {
        Output::Quiet => print(out, " quiet"),
        Output::FifoWord(sent, gap) => {
            print(out, " word");
            word(out, sent);
            print(out, " gap");
            number(out, gap);
        }
        Output::Message(sent) => {
            print(out, " word");
            word(out, sent);
        }
        Output::Null(time) => {
            print(out, " null");
            number(out, time);
        }
        Output::Async(sent, rest) => {
            print(out, " null 4 word");
            word(out, sent);
            print(out, " null");
            number(out, rest);
        }
        Output::Reserved(address) => {
            print(out, " reserved command at");
            number(out, address);
        }
        Output::NullMessage(sent) => {
            print(out, " null 4 word");
            word(out, sent);
        }
    }
}

fn outcome(arrival: Arrival) -> &'static str {
    match arrival {
        Arrival::Ignored => " ignored",
        Arrival::Filtered => " filtered",
        Arrival::Appended => " appended",
        Arrival::Dropped => " dropped",
        Arrival::Overwriting => " overwrote the oldest",
        Arrival::AlreadyListed => " already listed",
    }
}

fn show_fates(out: &mut impl Write, received: u32, read: u32, cleared: u32, overwritten: u32) {
    print(out, " accepted");
    number(out, received);
    print(out, ", read");
    number(out, read);
    print(out, ", cleared");
    number(out, cleared);
    print(out, ", overwritten");
    number(out, overwritten);
}

fn show_reply(out: &mut impl Write, reply: Reply) {
    match reply {
        Reply::Done => print(out, " done"),
        Reply::Value(value) => number(out, value),
        Reply::Waiting(mark, waiting) => {
            number(out, mark);
            word(out, waiting);
        }
        Reply::Fates(received, read, cleared, overwritten, _, _, _) => {
            show_fates(out, received, read, cleared, overwritten)
        }
        Reply::Arrived(arrival) => print(out, outcome(arrival)),
        Reply::Entry(status, entry, stamp) => {
            print(out, " status");
            number(out, status);
            print(out, ", word");
            word(out, entry);
            print(out, ", stamp");
            number(out, stamp);
        }
        Reply::Stepped(output) => show_output(out, output),
    }
}

fn show(out: &mut impl Write, answer: Result<Reply, Refusal>) {
    match answer {
        Ok(reply) => show_reply(out, reply),
        Err(refusal) => {
            print(out, " refused");
            number(out, refusal.into());
        }
    }
}

// Makes a call on a channel and shows what it is and what it answers.
fn call(
    out: &mut impl Write,
    mem: &mut [u32],
    channel: u32,
    text: &str,
    channel_call: ChannelCall,
) {
    print(out, "channel");
    number(out, channel);
    print(out, ": ");
    print(out, text);
    print(out, ":");
    show(out, perform(mem, Call::On(channel, channel_call)));
    print(out, "\n");
}

fn set(
    out: &mut impl Write,
    mem: &mut [u32],
    channel: u32,
    text: &str,
    setting: Setting,
    value: u32,
) {
    call(
        out,
        mem,
        channel,
        text,
        ChannelCall::Settings(SettingCall::WriteSetting(setting, value)),
    );
}

fn arrive(out: &mut impl Write, mem: &mut [u32], channel: u32, text: &str, arriving: u32) {
    call(
        out,
        mem,
        channel,
        text,
        ChannelCall::Receive(ReceiveCall::Arrive(arriving)),
    );
}

fn read(out: &mut impl Write, mem: &mut [u32], channel: u32) {
    call(
        out,
        mem,
        channel,
        "read",
        ChannelCall::Receive(ReceiveCall::ReadFifo),
    );
}

fn transmit(out: &mut impl Write, mem: &mut [u32], text: &str, transmit_call: TransmitCall) {
    call(out, mem, 2, text, ChannelCall::Transmit(transmit_call));
}

fn write_message(out: &mut impl Write, mem: &mut [u32], text: &str, address: u32, value: u32) {
    call(
        out,
        mem,
        2,
        text,
        ChannelCall::Memories(MemoryCall::WriteMessage(address, value)),
    );
}

fn write_command(out: &mut impl Write, mem: &mut [u32], text: &str, address: u32, command: u32) {
    call(
        out,
        mem,
        2,
        text,
        ChannelCall::Memories(MemoryCall::WriteSchedule(address, command)),
    );
}

fn status(out: &mut impl Write, mem: &mut [u32], channel: u32) {
    call(
        out,
        mem,
        channel,
        "status",
        ChannelCall::Status(StatusCall::ReadStatus),
    );
}

// Words arrive and are read; the second has bad parity, and is stored like any other.
fn receiving(out: &mut impl Write, mem: &mut [u32]) {
    set(out, mem, 1, "receiver on", Setting::Receiver, 1);
    arrive(out, mem, 1, "word 000000a1 arrives", 0x0000_00A1);
    arrive(out, mem, 1, "word 00000123 arrives", 0x0000_0123);
    read(out, mem, 1);
    read(out, mem, 1);
    read(out, mem, 1);
    status(out, mem, 1);
}

fn transmitting(out: &mut impl Write, mem: &mut [u32]) {
    set(out, mem, 2, "transmitter on", Setting::Transmitter, 1);
    set(
        out,
        mem,
        2,
        "scheduled mode",
        Setting::TransmitMode,
        SCHEDULED,
    );
}

// A schedule of a message, a gap that takes an async word, an interrupt and a stop.
fn program(out: &mut impl Write, mem: &mut [u32]) {
    write_message(
        out,
        mem,
        "message RAM 0 holds word 00000123",
        0,
        0x0000_0123,
    );
    write_message(out, mem, "message RAM 1 holds gap 100", 1, 100);
    write_command(out, mem, "command 0 sends message 0", 0, 0x1000);
    write_command(out, mem, "command 1 is gap 1", 1, 0x2001);
    write_command(out, mem, "command 2 interrupts", 2, 0x5000);
}

fn run(out: &mut impl Write, mem: &mut [u32]) {
    transmit(
        out,
        mem,
        "async word 000000a1",
        TransmitCall::WriteAsync(0x0000_00A1),
    );
    transmit(out, mem, "trigger", TransmitCall::Trigger);
    for _ in 0..4 {
        transmit(out, mem, "step", TransmitCall::Step);
    }
    status(out, mem, 2);
}

// Channel 3 has a circular FIFO of two.
fn circular(out: &mut impl Write, mem: &mut [u32]) {
    set(out, mem, 3, "receiver on", Setting::Receiver, 1);
    set(out, mem, 3, "FIFO circular", Setting::FifoKind, CIRCULAR);
    set(out, mem, 3, "FIFO size 2", Setting::ReceiveSize, 2);
}

// It takes a third word over the oldest: the counts and the status tell.
fn overrun(out: &mut impl Write, mem: &mut [u32]) {
    arrive(out, mem, 3, "word 00000001 arrives", 1);
    arrive(out, mem, 3, "word 00000002 arrives", 2);
    arrive(out, mem, 3, "word 00000004 arrives", 4);
    read(out, mem, 3);
    call(
        out,
        mem,
        3,
        "counts",
        ChannelCall::Reads(ReadCall::ReadCounts),
    );
    status(out, mem, 3);
}

// The words that three channels need: below 64 KiB.
const NEED: usize = MODULE_WORDS + 3 * WORDS;

fn show_all(out: &mut impl Write) {
    let mut mem = [0u32; NEED];
    print(out, "power-up of three channels:");
    show(out, perform(&mut mem, Call::PowerUp(3)));
    print(out, "\n");
    receiving(out, &mut mem);
    transmitting(out, &mut mem);
    program(out, &mut mem);
    run(out, &mut mem);
    circular(out, &mut mem);
    overrun(out, &mut mem);
    status(out, &mut mem, 4);
}

fn main(rt: HostRuntime) {
    show_all(&mut rt.stdout());
}
