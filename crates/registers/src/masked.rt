// A masked write: trigger, pause or stop, on each channel that the mask names.
ghost use Rattle.std.specs.Prelude.{◌≡◌, ◌≤◌};
ghost use Rattle.frame.specs.Layout.{most};
ghost use Rattle.channel_calls.specs.Answer.{answered};
ghost use Rattle.registers.specs.Masked.{control_call, tried_on, refused_on, tried_to, refused_to, masked_answer, masked_after};

use bits::weight;
use block::refusal::Refusal;
use channel_calls::calls::{ChannelCall, Reply, TransmitCall};
use frame::layout::MOST;
use register_map::map::Control;

fn control_call(control: Control) -> ChannelCall
    ensures { result ≡ control_call control }
{
    match control {
        Control::TriggerEach => ChannelCall::Transmit(TransmitCall::Trigger),
        Control::PauseEach => ChannelCall::Transmit(TransmitCall::Pause),
        Control::StopEach => ChannelCall::Transmit(TransmitCall::Stop),
    }
}

// Tries one channel: its bit of the answer's mask, where it is named and refuses, else 0.
fn try_on(mem: &mut [u32], control: Control, mask: u32, channel: u32) -> u32
    requires { (1 ≤ channel) × (channel ≤ most) }
    ensures answer { result ≡ refused_on control mask channel mem.old }
    ensures after { mem.new ≡ tried_on control mask channel mem.old }
{
    if (mask >> (channel - 1)) % 2 == 0 {
        return 0;
    }
    match module::on_channel::on_channel(mem, channel, control_call(control)) {
        Ok(_) => 0,
        Err(_) => weight(channel - 1),
    }
}

// Tries the channels in order: the mask of those that refused.
fn try_each(mem: &mut [u32], control: Control, mask: u32) -> u32
    ensures answer { result ≡ refused_to control mask most mem.old }
    ensures after { mem.new ≡ tried_to control mask most mem.old }
{
    let mut refused = 0;
    for channel in 0..MOST {
        refused += try_on(mem, control, mask, channel + 1);
    }
    refused
}

// A masked write, refused whole by the module part, or tried on each named channel.
pub fn masked(mem: &mut [u32], control: Control, mask: u32) -> Result<Reply, Refusal>
    ensures answer { answered result ≡ masked_answer control mask mem.old }
    ensures after { mem.new ≡ masked_after control mask mem.old }
{
    frame::refusals::part_refusal(mem)?;
    Ok(Reply::Value(try_each(mem, control, mask)))
}
