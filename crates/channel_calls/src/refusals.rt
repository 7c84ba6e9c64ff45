// When a call on a sound channel is refused: for a range or a mode, full or empty.
ghost use Rattle.std.specs.Prelude.{◌≡◌, ◌<◌};
ghost use Rattle.block.specs.Layout.{Whole, settings};
ghost use Rattle.block.specs.Ranges.{Usable};
ghost use Rattle.block.specs.Refusals.{number_of, refusal_number};
ghost use Rattle.channel_calls.specs.Answers.{setting_number};
ghost use Rattle.channel_calls.specs.Refusals.{above, below, setting_call_refusal, memory_call_refusal, status_call_refusal, test_call_refusal, receive_call_refusal, transmit_call_refusal, channel_refusal};

use crate::calls::{
    ChannelCall, MemoryCall, ReceiveCall, Setting, SettingCall, StatusCall, TestCall, TransmitCall,
};
use block::layout::{
    ASYNC_MARK, LAST_INDEX, RECEIVE_LEVEL, TRANSMIT_LEVEL, TRANSMIT_MODE, TRANSMITTER,
};
use block::modes::SCHEDULED;
use block::ranges::ALL_CONDITIONS;
use block::refusal::Refusal;
use ring::LAST_SLOT;
use schedule::{LAST, LAST_MESSAGE};

// Refuses an `x` above the limit.
fn above(limit: u32, x: u32, refusal: Refusal) -> Result<(), Refusal>
    ensures { number_of result ≡ above limit x (refusal_number refusal) }
{
    if limit < x {
        return Err(refusal);
    }
    Ok(())
}

// Refuses an `x` below the limit.
fn below(limit: u32, x: u32, refusal: Refusal) -> Result<(), Refusal>
    ensures { number_of result ≡ below limit x (refusal_number refusal) }
{
    if x < limit {
        return Err(refusal);
    }
    Ok(())
}

// A setting's number. A function with two clauses, since who writes or reads a setting needs the bound too.
pub fn setting_number(setting: Setting) -> usize
    ensures value { result ≡ setting_number setting }
    ensures bound { result < settings }
{
    match setting {
        Setting::Receiver => block::layout::RECEIVER,
        Setting::Transmitter => block::layout::TRANSMITTER,
        Setting::Parity => block::layout::PARITY,
        Setting::Match => block::layout::MATCH,
        Setting::Stamps => block::layout::STAMPS,
        Setting::ReceiveMode => block::layout::RECEIVE_MODE,
        Setting::FifoKind => block::layout::FIFO_KIND,
        Setting::TransmitMode => block::layout::TRANSMIT_MODE,
        Setting::ReceiveSize => block::layout::RECEIVE_SIZE,
        Setting::AlmostFull => block::layout::ALMOST_FULL,
        Setting::AlmostEmpty => block::layout::ALMOST_EMPTY,
        Setting::Rate => block::layout::RATE,
    }
}

fn setting_refusal(block: &[u32], call: SettingCall) -> Result<(), Refusal>
    requires { Whole block.now }
    ensures { number_of result ≡ setting_call_refusal call block.now }
{
    match call {
        SettingCall::WriteSetting(setting, value) => settings::writing::write_refusal(
            block,
            setting_number(setting),
            value,
        ),
        SettingCall::ReadSetting(_) => Ok(()),
    }
}

fn memory_refusal(call: MemoryCall) -> Result<(), Refusal>
    ensures { number_of result ≡ memory_call_refusal call }
{
    match call {
        MemoryCall::WriteMatch(index, mark) => {
            above(LAST_INDEX, index, Refusal::Range)?;
            above(1, mark, Refusal::Range)
        }
        MemoryCall::ReadMatch(index) => above(LAST_INDEX, index, Refusal::Range),
        MemoryCall::WriteSchedule(address, _) => above(LAST, address, Refusal::Range),
        MemoryCall::ReadSchedule(address) => above(LAST, address, Refusal::Range),
        MemoryCall::WriteMessage(address, _) => above(LAST_MESSAGE, address, Refusal::Range),
        MemoryCall::ReadMessage(address) => above(LAST_MESSAGE, address, Refusal::Range),
    }
}

fn status_refusal(call: StatusCall) -> Result<(), Refusal>
    ensures { number_of result ≡ status_call_refusal call }
{
    match call {
        StatusCall::ReadStatus => Ok(()),
        StatusCall::ClearLatch(mask) => above(ALL_CONDITIONS, mask, Refusal::Range),
        StatusCall::WriteEnable(mask) => above(ALL_CONDITIONS, mask, Refusal::Range),
        StatusCall::ReadEnable => Ok(()),
        StatusCall::WriteLevelMask(mask) => above(ALL_CONDITIONS, mask, Refusal::Range),
        StatusCall::ReadLevelMask => Ok(()),
        StatusCall::ReadPending => Ok(()),
    }
}

fn test_refusal(call: TestCall) -> Result<(), Refusal>
    ensures { number_of result ≡ test_call_refusal call }
{
    match call {
        TestCall::Sample(result) => above(1, result, Refusal::Range),
        TestCall::ResetTest => Ok(()),
        TestCall::InitiateTest(result) => above(1, result, Refusal::Range),
    }
}

fn receive_refusal(block: &[u32], call: ReceiveCall) -> Result<(), Refusal>
    requires { Whole block.now }
    ensures { number_of result ≡ receive_call_refusal call block.now }
{
    match call {
        ReceiveCall::Arrive(_) => Ok(()),
        ReceiveCall::ReadFifo => below(1, block[RECEIVE_LEVEL], Refusal::Empty),
        ReceiveCall::ReadMailbox(index) => above(LAST_INDEX, index, Refusal::Range),
    }
}

fn transmit_refusal(block: &[u32], call: TransmitCall) -> Result<(), Refusal>
    requires { Whole block.now }
    ensures { number_of result ≡ transmit_call_refusal call block.now }
{
    match call {
        TransmitCall::WriteFifo(_) => above(LAST_SLOT, block[TRANSMIT_LEVEL], Refusal::Full),
        TransmitCall::WriteAsync(_) => {
            below(SCHEDULED, block[TRANSMIT_MODE], Refusal::Mode)?;
            above(0, block[ASYNC_MARK], Refusal::Full)
        }
        TransmitCall::Trigger => below(1, block[TRANSMITTER], Refusal::Mode),
        TransmitCall::Pause => Ok(()),
        TransmitCall::Stop => Ok(()),
        TransmitCall::Step => Ok(()),
    }
}

// Refuses a call on a sound channel, or not.
pub fn refusal(block: &[u32], call: ChannelCall) -> Result<(), Refusal>
    requires { Usable block.now }
    ensures { number_of result ≡ channel_refusal call block.now }
{
    match call {
        ChannelCall::Settings(k) => setting_refusal(block, k),
        ChannelCall::Memories(k) => memory_refusal(k),
        ChannelCall::Status(k) => status_refusal(k),
        ChannelCall::Tests(k) => test_refusal(k),
        ChannelCall::Reads(_) => Ok(()),
        ChannelCall::Receive(k) => receive_refusal(block, k),
        ChannelCall::Transmit(k) => transmit_refusal(block, k),
    }
}
