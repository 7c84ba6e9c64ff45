// How many values an access answers beside its number: a refusal has as many zeros.
#![tactic(auto)]

ghost use Rattle.std.specs.Prelude.{◌≡◌, ◌≤◌};
ghost use Rattle.channel_calls.specs.Answers.{setting_values, memory_values, status_values, read_values, receive_values, transmit_values, channel_values};
ghost use Rattle.module.specs.Perform.{wide_values, values};
ghost use Rattle.registers.specs.Access.{access_values};

use channel_calls::calls::{
    ChannelCall, MemoryCall, ReadCall, ReceiveCall, SettingCall, StatusCall, TransmitCall,
};
use module::calls::Call;
use registers::accesses::Access;
use wide::calls::{WideCall, WideEffect};

fn setting_values(call: SettingCall) -> usize
    ensures value { result ≡ setting_values call }
    ensures bound { result ≤ 7 }
{
    match call {
        SettingCall::WriteSetting(_, _) => 0,
        SettingCall::ReadSetting(_) => 1,
    }
}

fn memory_values(call: MemoryCall) -> usize
    ensures value { result ≡ memory_values call }
    ensures bound { result ≤ 7 }
{
    match call {
        MemoryCall::WriteMatch(_, _) => 0,
        MemoryCall::ReadMatch(_) => 1,
        MemoryCall::WriteSchedule(_, _) => 0,
        MemoryCall::ReadSchedule(_) => 1,
        MemoryCall::WriteMessage(_, _) => 0,
        MemoryCall::ReadMessage(_) => 1,
    }
}

fn status_values(call: StatusCall) -> usize
    ensures value { result ≡ status_values call }
    ensures bound { result ≤ 7 }
{
    match call {
        StatusCall::ReadStatus => 1,
        StatusCall::ClearLatch(_) => 0,
        StatusCall::WriteEnable(_) => 0,
        StatusCall::ReadEnable => 1,
        StatusCall::WriteLevelMask(_) => 0,
        StatusCall::ReadLevelMask => 1,
        StatusCall::ReadPending => 1,
    }
}

fn read_values(call: ReadCall) -> usize
    ensures value { result ≡ read_values call }
    ensures bound { result ≤ 7 }
{
    match call {
        ReadCall::ReadCounts => 7,
        ReadCall::ReadReceiveLevel => 1,
        ReadCall::ReadTransmitLevel => 1,
        ReadCall::ReadAsync => 2,
    }
}

fn receive_values(call: ReceiveCall) -> usize
    ensures value { result ≡ receive_values call }
    ensures bound { result ≤ 7 }
{
    match call {
        ReceiveCall::Arrive(_) => 1,
        ReceiveCall::ReadFifo => 3,
        ReceiveCall::ReadMailbox(_) => 3,
    }
}

fn transmit_values(call: TransmitCall) -> usize
    ensures value { result ≡ transmit_values call }
    ensures bound { result ≤ 7 }
{
    match call {
        TransmitCall::WriteFifo(_) => 0,
        TransmitCall::WriteAsync(_) => 0,
        TransmitCall::Trigger => 0,
        TransmitCall::Pause => 0,
        TransmitCall::Stop => 0,
        TransmitCall::Step => 4,
    }
}

fn channel_values(call: ChannelCall) -> usize
    ensures value { result ≡ channel_values call }
    ensures bound { result ≤ 7 }
{
    match call {
        ChannelCall::Settings(k) => setting_values(k),
        ChannelCall::Memories(k) => memory_values(k),
        ChannelCall::Status(k) => status_values(k),
        ChannelCall::Tests(_) => 0,
        ChannelCall::Reads(k) => read_values(k),
        ChannelCall::Receive(k) => receive_values(k),
        ChannelCall::Transmit(k) => transmit_values(k),
    }
}

fn wide_values(call: WideCall) -> usize
    ensures value { result ≡ wide_values call }
    ensures bound { result ≤ 7 }
{
    let effect = wide::effects::effect_of(call);
    match effect {
        WideEffect::Shows(_) => 1,
        WideEffect::Stores(_, _) => 0,
        WideEffect::Advances(_) => 0,
    }
}

fn call_values(call: Call) -> usize
    ensures value { result ≡ values call }
    ensures bound { result ≤ 7 }
{
    match call {
        Call::PowerUp(_) => 0,
        Call::Reset => 0,
        Call::Wide(k) => wide_values(k),
        Call::On(_, k) => channel_values(k),
    }
}

// At most seven.
pub fn values(access: Access) -> usize
    ensures value { result ≡ access_values access }
    ensures bound { result ≤ 7 }
{
    match access {
        Access::Direct(call) => call_values(call),
        Access::ReadRegister(_) => 1,
        Access::WriteRegister(_, _) => 1,
    }
}
