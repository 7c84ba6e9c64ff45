// What a register's read or write is turned into.
ghost use Rattle.std.specs.Prelude.{◌≡◌, Some};
ghost use Rattle.register_map.specs.Registers.{found};
ghost use Rattle.register_map.specs.Turns.{turned_to};
ghost use Rattle.register_map.specs.Turned.{read_of, read_turned, write_of, write_turned};

use crate::map::{BYTES, Control, Register};
use crate::shown::Bits;
use block::refusal::Refusal;
use channel_calls::calls::{
    ChannelCall, MemoryCall, ReadCall, Setting, SettingCall, StatusCall, TransmitCall,
};

#[derive(Drop)]
pub enum Asked {
    // A channel, the call on it, and the bits that the register shows.
    OneCall(u32, ChannelCall, Bits),
    // What is asked of each channel, and the mask that names them.
    EachNamed(Control, u32),
}

fn read_of(register: Register) -> Result<Asked, Refusal>
    ensures { turned_to result ≡ read_of (found (Some register)) }
{
    match register {
        Register::RateOf(channel) => Ok(Asked::OneCall(
            channel,
            ChannelCall::Settings(SettingCall::ReadSetting(Setting::Rate)),
            Bits::AllBits,
        )),
        Register::AsyncOf(channel) => Ok(Asked::OneCall(
            channel,
            ChannelCall::Reads(ReadCall::ReadAsync),
            Bits::AllBits,
        )),
        Register::StatusOf(channel) => Ok(Asked::OneCall(
            channel,
            ChannelCall::Status(StatusCall::ReadStatus),
            Bits::StatusBits,
        )),
        Register::ScheduleOf(channel, at) => Ok(Asked::OneCall(
            channel,
            ChannelCall::Memories(MemoryCall::ReadSchedule(at)),
            Bits::CommandBits,
        )),
        Register::MessageOf(channel, at) => Ok(Asked::OneCall(
            channel,
            ChannelCall::Memories(MemoryCall::ReadMessage(at)),
            Bits::AllBits,
        )),
        Register::ControlOf(_) => Err(Refusal::WrongWay),
    }
}

fn write_of(register: Register, value: u32) -> Result<Asked, Refusal>
    ensures { turned_to result ≡ write_of (found (Some register)) value }
{
    match register {
        Register::RateOf(channel) => Ok(Asked::OneCall(
            channel,
            ChannelCall::Settings(SettingCall::WriteSetting(Setting::Rate, value)),
            Bits::AllBits,
        )),
        Register::AsyncOf(channel) => Ok(Asked::OneCall(
            channel,
            ChannelCall::Transmit(TransmitCall::WriteAsync(value)),
            Bits::AllBits,
        )),
        Register::StatusOf(_) => Err(Refusal::WrongWay),
        Register::ScheduleOf(channel, at) => Ok(Asked::OneCall(
            channel,
            ChannelCall::Memories(MemoryCall::WriteSchedule(at, value)),
            Bits::AllBits,
        )),
        Register::MessageOf(channel, at) => Ok(Asked::OneCall(
            channel,
            ChannelCall::Memories(MemoryCall::WriteMessage(at, value)),
            Bits::AllBits,
        )),
        Register::ControlOf(control) => Ok(Asked::EachNamed(control, value)),
    }
}

// A read of an address.
pub fn read_turned(address: u32) -> Result<Asked, Refusal>
    ensures { turned_to result ≡ read_turned address }
{
    if address % BYTES != 0 {
        return Err(Refusal::NotAligned);
    }
    match crate::map::register_at(address) {
        Some(register) => read_of(register),
        None => Err(Refusal::NoRegister),
    }
}

// A write of a value to an address.
pub fn write_turned(address: u32, value: u32) -> Result<Asked, Refusal>
    ensures { turned_to result ≡ write_turned address value }
{
    if address % BYTES != 0 {
        return Err(Refusal::NotAligned);
    }
    match crate::map::register_at(address) {
        Some(register) => write_of(register, value),
        None => Err(Refusal::NoRegister),
    }
}
