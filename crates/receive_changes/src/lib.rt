// What an access does to the receive FIFO of one channel, by its answer and the receive mode before it.
#![tactic(auto)]

ghost use Rattle.std.specs.Prelude.{◌≡◌};
ghost use Rattle.channel_calls.specs.Answer.{accepted, answered_by};
ghost use Rattle.receive_changes.specs.Changes.{left, by_setting, by_settings, by_test, by_outcome, by_arrival, by_read, by_receive, on_called, by_call, by_access};

use arrival::Arrival;
use block::modes::FIFO_MODE;
use channel_calls::calls::{ChannelCall, ReceiveCall, Reply, Setting, SettingCall, TestCall};
use channel_calls::numbers::Numbered;
use module::calls::Call;
use registers::accesses::Access;

// What happens to the FIFO.
#[derive(Drop)]
pub enum Happening {
    // A case of the description's own: "Any other call, and any refused one: nothing."
    Nothing,
    // An entry is accepted.
    Enters,
    // The oldest is overwritten, and an entry is accepted.
    EntersOverOldest,
    // The oldest is read.
    OldestRead,
    AllCleared,
    // Power-up: none held, and the counts begin anew.
    AllBegun,
}

// What happens, and the receive mode afterwards.
#[derive(Drop)]
pub struct Seen {
    pub happening: Happening,
    pub mode: u32,
}

fn left(mode: u32) -> Seen
    ensures { result ≡ left mode }
{
    Seen {
        happening: Happening::Nothing,
        mode,
    }
}

// Receive mode written with a value: only a change clears.
fn by_mode(mode: u32, value: u32) -> Seen
    ensures { result ≡ Rattle.receive_changes.specs.Changes.by_mode mode value }
{
    if mode == value {
        return left(value);
    }
    Seen {
        happening: Happening::AllCleared,
        mode: value,
    }
}

fn by_setting(mode: u32, setting: Setting, value: u32) -> Seen
    ensures { result ≡ by_setting mode setting value }
{
    match setting {
        Setting::Receiver => left(mode),
        Setting::Transmitter => left(mode),
        Setting::Parity => left(mode),
        Setting::Match => left(mode),
        Setting::Stamps => left(mode),
        Setting::ReceiveMode => by_mode(mode, value),
        Setting::FifoKind => left(mode),
        Setting::TransmitMode => left(mode),
        Setting::ReceiveSize => left(mode),
        Setting::AlmostFull => left(mode),
        Setting::AlmostEmpty => left(mode),
        Setting::Rate => left(mode),
    }
}

fn by_settings(mode: u32, call: SettingCall) -> Seen
    ensures { result ≡ by_settings mode call }
{
    match call {
        SettingCall::WriteSetting(setting, value) => by_setting(mode, setting, value),
        SettingCall::ReadSetting(_) => left(mode),
    }
}

fn by_test(mode: u32, call: TestCall) -> Seen
    ensures { result ≡ by_test mode call }
{
    match call {
        TestCall::Sample(_) => left(mode),
        TestCall::ResetTest => left(mode),
        TestCall::InitiateTest(_) => Seen {
            happening: Happening::AllCleared,
            mode,
        },
    }
}

fn by_outcome(mode: u32, outcome: Arrival) -> Seen
    ensures { result ≡ by_outcome mode outcome }
{
    match outcome {
        Arrival::Ignored => left(mode),
        Arrival::Filtered => left(mode),
        Arrival::Appended => Seen {
            happening: Happening::Enters,
            mode,
        },
        Arrival::Dropped => left(mode),
        Arrival::Overwriting => Seen {
            happening: Happening::EntersOverOldest,
            mode,
        },
        Arrival::AlreadyListed => left(mode),
    }
}

fn by_arrival(mode: u32, reply: Reply) -> Seen
    ensures { result ≡ by_arrival mode (accepted reply) }
{
    match reply {
        Reply::Done => left(mode),
        Reply::Value(_) => left(mode),
        Reply::Waiting(_, _) => left(mode),
        Reply::Fates(_, _, _, _, _, _, _) => left(mode),
        Reply::Arrived(outcome) => by_outcome(mode, outcome),
        Reply::Entry(_, _, _) => left(mode),
        Reply::Stepped(_) => left(mode),
    }
}

fn by_read(mode: u32, reply: Reply) -> Seen
    ensures { result ≡ by_read mode (accepted reply) }
{
    match reply {
        Reply::Done => left(mode),
        Reply::Value(_) => left(mode),
        Reply::Waiting(_, _) => left(mode),
        Reply::Fates(_, _, _, _, _, _, _) => left(mode),
        Reply::Arrived(_) => left(mode),
        Reply::Entry(_, _, _) => Seen {
            happening: Happening::OldestRead,
            mode,
        },
        Reply::Stepped(_) => left(mode),
    }
}

fn by_receive(mode: u32, call: ReceiveCall, reply: Reply) -> Seen
    ensures { result ≡ by_receive mode call (accepted reply) }
{
    match call {
        ReceiveCall::Arrive(_) => by_arrival(mode, reply),
        ReceiveCall::ReadFifo => by_read(mode, reply),
        ReceiveCall::ReadMailbox(_) => left(mode),
    }
}

// An accepted call on the channel.
fn on_called(mode: u32, call: ChannelCall, reply: Reply) -> Seen
    ensures { result ≡ on_called mode call (accepted reply) }
{
    match call {
        ChannelCall::Settings(k) => by_settings(mode, k),
        ChannelCall::Memories(_) => left(mode),
        ChannelCall::Status(_) => left(mode),
        ChannelCall::Tests(k) => by_test(mode, k),
        ChannelCall::Reads(_) => left(mode),
        ChannelCall::Receive(k) => by_receive(mode, k, reply),
        ChannelCall::Transmit(_) => left(mode),
    }
}

// An accepted call on a channel, by its number.
fn on_channel(channel: u32, mode: u32, named: u32, call: ChannelCall, reply: Reply) -> Seen
    ensures { result ≡ Rattle.receive_changes.specs.Changes.on_channel channel mode named call (accepted reply) }
{
    if named == channel {
        return on_called(mode, call, reply);
    }
    left(mode)
}

// An accepted call.
fn by_call(channel: u32, mode: u32, call: Call, reply: Reply) -> Seen
    ensures { result ≡ by_call channel mode call (accepted reply) }
{
    match call {
        Call::PowerUp(_) => Seen {
            happening: Happening::AllBegun,
            mode: FIFO_MODE,
        },
        Call::Reset => Seen {
            happening: Happening::AllCleared,
            mode: FIFO_MODE,
        },
        Call::Wide(_) => left(mode),
        Call::On(named, k) => on_channel(channel, mode, named, k, reply),
    }
}

// A call with its answer: a refused one changes nothing.
fn directly<E: Numbered>(channel: u32, mode: u32, call: Call, answer: Result<Reply, E>) -> Seen
    ensures { result ≡ Rattle.receive_changes.specs.Changes.directly channel mode call (answered_by E.number answer) }
{
    match answer {
        Ok(reply) => by_call(channel, mode, call, reply),
        Err(_) => left(mode),
    }
}

// An access with its answer. A register access never changes a receive FIFO.
pub fn by_access<E: Numbered>(
    channel: u32,
    mode: u32,
    access: Access,
    answer: Result<Reply, E>,
) -> Seen
    ensures { result ≡ by_access channel mode access (answered_by E.number answer) }
{
    match access {
        Access::Direct(call) => directly(channel, mode, call, answer),
        Access::ReadRegister(_) => left(mode),
        Access::WriteRegister(_, _) => left(mode),
    }
}
