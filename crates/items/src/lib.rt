// An access from the four words of an item: the op, the channel and two arguments. A word that an op does not use is ignored.
#![tactic(auto, using(word::proofs::Branches::branches), unfolding(crate::specs::Items::wide_of, crate::specs::Items::switch_of, crate::specs::Items::setting_of, crate::specs::Items::setting_item, crate::specs::Items::receive_of, crate::specs::Items::match_of, crate::specs::Items::transmit_of, crate::specs::Items::ram_of, crate::specs::Items::test_of, crate::specs::Items::status_of, crate::specs::Items::read_of, crate::specs::Items::channel_of, crate::specs::Items::register_item, crate::specs::Items::decoded))]

ghost use Rattle.std.specs.Prelude.{◌≡◌};
ghost use Rattle.items.specs.Items.{wide_of, switch_of, setting_of, setting_item, receive_of, match_of, transmit_of, ram_of, test_of, status_of, read_of, channel_of, register_item, decoded};

use channel_calls::calls::{
    ChannelCall, MemoryCall, ReadCall, ReceiveCall, Setting, SettingCall, StatusCall, TestCall,
    TransmitCall,
};
use module::calls::Call;
use registers::accesses::Access;
use wide::calls::WideCall;

// Ops 3 to 9.
fn wide_of(op: u32, a: u32) -> WideCall
    ensures { result ≡ wide_of op a }
{
    match op {
        3 => WideCall::AdvanceStamp(a),
        4 => WideCall::ZeroStamp,
        5 => WideCall::ReadStamp,
        6 => WideCall::WriteResolution(a),
        7 => WideCall::ReadResolution,
        8 => WideCall::WriteThreshold(a),
        _ => WideCall::ReadThreshold,
    }
}

// Settings 0 to 4.
fn switch_of(number: u32) -> Setting
    ensures { result ≡ switch_of number }
{
    match number {
        0 => Setting::Receiver,
        1 => Setting::Transmitter,
        2 => Setting::Parity,
        3 => Setting::Match,
        _ => Setting::Stamps,
    }
}

// Settings 0 to 11. No `TryFrom`: who calls it has told the numbers above 11 apart.
fn setting_of(number: u32) -> Setting
    ensures { result ≡ setting_of number }
{
    match number {
        0..=4 => switch_of(number),
        5 => Setting::ReceiveMode,
        6 => Setting::FifoKind,
        7 => Setting::TransmitMode,
        8 => Setting::ReceiveSize,
        9 => Setting::AlmostFull,
        10 => Setting::AlmostEmpty,
        _ => Setting::Rate,
    }
}

// Ops below 128: a setting is written by 32 and its number, read by 64 and its number.
fn setting_item(op: u32, channel: u32, a: u32) -> Option<Access>
    ensures { result ≡ setting_item op channel a }
{
    let call = match op {
        32..=43 => SettingCall::WriteSetting(setting_of(op - 32), a),
        64..=75 => SettingCall::ReadSetting(setting_of(op - 64)),
        _ => return None,
    };
    Some(Access::Direct(Call::On(channel, ChannelCall::Settings(call))))
}

// Ops 128 to 130.
fn receive_of(op: u32, a: u32) -> ReceiveCall
    ensures { result ≡ receive_of op a }
{
    match op {
        128 => ReceiveCall::Arrive(a),
        129 => ReceiveCall::ReadFifo,
        _ => ReceiveCall::ReadMailbox(a),
    }
}

// Ops 131 and 132.
fn match_of(op: u32, a: u32, b: u32) -> MemoryCall
    ensures { result ≡ match_of op a b }
{
    match op {
        131 => MemoryCall::WriteMatch(a, b),
        _ => MemoryCall::ReadMatch(a),
    }
}

// Ops 133 to 138.
fn transmit_of(op: u32, a: u32) -> TransmitCall
    ensures { result ≡ transmit_of op a }
{
    match op {
        133 => TransmitCall::WriteFifo(a),
        134 => TransmitCall::WriteAsync(a),
        135 => TransmitCall::Trigger,
        136 => TransmitCall::Pause,
        137 => TransmitCall::Stop,
        _ => TransmitCall::Step,
    }
}

// Ops 139 to 142.
fn ram_of(op: u32, a: u32, b: u32) -> MemoryCall
    ensures { result ≡ ram_of op a b }
{
    match op {
        139 => MemoryCall::WriteSchedule(a, b),
        140 => MemoryCall::ReadSchedule(a),
        141 => MemoryCall::WriteMessage(a, b),
        _ => MemoryCall::ReadMessage(a),
    }
}

// Ops 143 to 145.
fn test_of(op: u32, a: u32) -> TestCall
    ensures { result ≡ test_of op a }
{
    match op {
        143 => TestCall::Sample(a),
        144 => TestCall::ResetTest,
        _ => TestCall::InitiateTest(a),
    }
}

// Ops 146 to 152.
fn status_of(op: u32, a: u32) -> StatusCall
    ensures { result ≡ status_of op a }
{
    match op {
        146 => StatusCall::ReadStatus,
        147 => StatusCall::ClearLatch(a),
        148 => StatusCall::WriteEnable(a),
        149 => StatusCall::ReadEnable,
        150 => StatusCall::WriteLevelMask(a),
        151 => StatusCall::ReadLevelMask,
        _ => StatusCall::ReadPending,
    }
}

// Ops 153 to 156.
fn read_of(op: u32) -> ReadCall
    ensures { result ≡ read_of op }
{
    match op {
        153 => ReadCall::ReadCounts,
        154 => ReadCall::ReadReceiveLevel,
        155 => ReadCall::ReadTransmitLevel,
        _ => ReadCall::ReadAsync,
    }
}

// Ops 128 to 156.
fn channel_of(op: u32, a: u32, b: u32) -> ChannelCall
    ensures { result ≡ channel_of op a b }
{
    match op {
        0..=130 => ChannelCall::Receive(receive_of(op, a)),
        131..=132 => ChannelCall::Memories(match_of(op, a, b)),
        133..=138 => ChannelCall::Transmit(transmit_of(op, a)),
        139..=142 => ChannelCall::Memories(ram_of(op, a, b)),
        143..=145 => ChannelCall::Tests(test_of(op, a)),
        146..=152 => ChannelCall::Status(status_of(op, a)),
        _ => ChannelCall::Reads(read_of(op)),
    }
}

// Ops above 156: registers.
fn register_item(op: u32, a: u32, b: u32) -> Option<Access>
    ensures { result ≡ register_item op a b }
{
    match op {
        160 => Some(Access::ReadRegister(a)),
        161 => Some(Access::WriteRegister(a, b)),
        _ => None,
    }
}

// The access of an item, of any four words; none where the op is not in the table.
pub fn decode(op: u32, channel: u32, a: u32, b: u32) -> Option<Access>
    ensures { result ≡ decoded op channel a b }
{
    match op {
        0 => None,
        1 => Some(Access::Direct(Call::PowerUp(a))),
        2 => Some(Access::Direct(Call::Reset)),
        3..=9 => Some(Access::Direct(Call::Wide(wide_of(op, a)))),
        10..=127 => setting_item(op, channel, a),
        128..=156 => Some(Access::Direct(Call::On(channel, channel_of(op, a, b)))),
        _ => register_item(op, a, b),
    }
}
