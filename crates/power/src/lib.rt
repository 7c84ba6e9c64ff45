// Power-up: fills the module part and the blocks of the asked channels.
#![tactic(auto)]

ghost use Rattle.std.specs.Prelude.{◌≡◌, ◌++◌, ◌≤◌, length, take, drop, replicate};
ghost use Rattle.block.specs.Layout.{word};
ghost use Rattle.block.specs.Refusals.{number_of};
ghost use Rattle.settings.specs.Factory.{nonzero_to_factory};
ghost use Rattle.frame.specs.Layout.{count, layout, module_words, most, need, block, with_block};
ghost use Rattle.power.specs.Power.{part_with, factory_part, factory_blocks, power_refusal, power_after};

use block::layout::WORDS;
use block::refusal::Refusal;
use frame::layout::{
    COUNT, COUNTERS, LAYOUT, LAYOUT_NUMBER, MODULE_WORDS, MOST, RESOLUTION, STAMP, THRESHOLD, need,
};

// The fault threshold at power-up.
const FACTORY_THRESHOLD: u32 = 5;

// Fills the words of the module part that power-up and module reset leave alike: all but the count and the layout number.
pub fn fill_part(mem: &mut [u32])
    requires { module_words ≤ length mem.old }
    ensures { mem.new ≡ part_with (word mem.old count) (word mem.old layout) ++ drop module_words mem.old }
{
    mem[STAMP] = 0;
    mem[RESOLUTION] = 0;
    mem[THRESHOLD] = FACTORY_THRESHOLD;
    mem[COUNTERS] = 0;
    mem[COUNTERS + 1] = 0;
    mem[COUNTERS + 2] = 0;
    mem[COUNTERS + 3] = 0;
    mem[COUNTERS + 4] = 0;
    mem[COUNTERS + 5] = 0;
    mem[COUNTERS + 6] = 0;
    mem[COUNTERS + 7] = 0;
    mem[COUNTERS + 8] = 0;
    mem[COUNTERS + 9] = 0;
    mem[COUNTERS + 10] = 0;
    mem[COUNTERS + 11] = 0;
}

// Fills the module part with the count and the number of this layout.
fn start_part(mem: &mut [u32], count: u32)
    requires { module_words ≤ length mem.old }
    ensures { mem.new ≡ factory_part count ++ drop module_words mem.old }
{
    mem[COUNT] = count;
    mem[LAYOUT] = LAYOUT_NUMBER;
    fill_part(mem);
}

// Puts a channel's settings to their factory values, where all of its block is zeros.
fn set_channel(mem: &mut [u32], channel: u32)
    requires { (1 ≤ channel) × (need channel ≤ length mem.old) }
    ensures { mem.new ≡ with_block mem.old channel (nonzero_to_factory (block mem.old channel)) }
{
    let from = MODULE_WORDS + ((channel - 1) as usize) * WORDS;
    let to = from + WORDS;
    settings::factory::reset_nonzero_settings(&mut mem[from..to]);
}

// Fills the blocks of the channels 1 to `count`: zeros in all of them at once, which is quicker than block by block, and then the settings.
fn fill_channels(mem: &mut [u32], count: u32)
    requires { (count ≤ most) × (need count ≤ length mem.old) }
    ensures { mem.new ≡ take module_words mem.old ++ (factory_blocks count ++ drop (need count) mem.old) }
{
    let to = need(count);
    mem[MODULE_WORDS..to].fill(0);
    for channel in 0..count {
        set_channel(mem, channel + 1);
    }
}

// Powers a module of `count` channels up.
pub fn power_up(mem: &mut [u32], count: u32) -> Result<(), Refusal>
    ensures refusal { number_of result ≡ power_refusal count (length mem.old) }
    ensures after { mem.new ≡ power_after count mem.old }
{
    if count < 1 {
        return Err(Refusal::Range);
    }
    if MOST < count {
        return Err(Refusal::Range);
    }
    if mem.len() < need(count) {
        return Err(Refusal::Short);
    }
    fill_channels(mem, count);
    start_part(mem, count);
    Ok(())
}
