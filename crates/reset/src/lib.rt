// Module reset: every channel's block, and then the module part.
#![tactic(auto)]

ghost use Rattle.std.specs.Prelude.{◌≡◌, ◌≤◌, length};
ghost use Rattle.block.specs.Layout.{word};
ghost use Rattle.block.specs.Refusals.{number_of};
ghost use Rattle.frame.specs.Layout.{count, need, Framed, with_block};
ghost use Rattle.frame.specs.Refusals.{wide_refusal};
ghost use Rattle.reset.specs.Reset.{reset_channel, reset_to, reset_after};

use block::layout::WORDS;
use block::refusal::Refusal;
use frame::layout::{COUNT, MODULE_WORDS};

// Resets a channel's block.
fn reset_channel(mem: &mut [u32], channel: u32)
    requires { (1 ≤ channel) × (need channel ≤ length mem.old) }
    ensures { mem.new ≡ with_block mem.old channel (reset_channel mem.old channel) }
{
    let from = MODULE_WORDS + ((channel - 1) as usize) * WORDS;
    let to = from + WORDS;
    restart::reset(&mut mem[from..to]);
}

// Resets the block of every channel.
fn reset_channels(mem: &mut [u32])
    requires { Framed (length mem.old) (word mem.old count) }
    ensures { mem.new ≡ reset_to (word mem.old count) mem.old }
{
    let count = mem[COUNT];
    for channel in 0..count {
        reset_channel(mem, channel + 1);
    }
}

// Resets a module.
pub fn reset(mem: &mut [u32]) -> Result<(), Refusal>
    ensures refusal { number_of result ≡ wide_refusal mem.old }
    ensures after { mem.new ≡ reset_after mem.old }
{
    frame::channels::wide_refusal(mem)?;
    reset_channels(mem);
    power::fill_part(mem);
    Ok(())
}
