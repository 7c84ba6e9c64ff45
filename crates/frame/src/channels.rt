// Whether every channel of a module is sound, for the calls that name none.
ghost use Rattle.std.specs.Prelude.{◌≡◌, ◌≤◌, length};
ghost use Rattle.block.specs.Layout.{word};
ghost use Rattle.block.specs.Ranges.{sound};
ghost use Rattle.block.specs.Refusals.{number_of};
ghost use Rattle.frame.specs.Layout.{count, Framed, block};
ghost use Rattle.frame.specs.Refusals.{sound_to, wide_refusal};

use crate::layout::{COUNT, MODULE_WORDS};
use crate::refusals::part_refusal;
use block::layout::WORDS;
use block::refusal::Refusal;

// Whether a channel's block is sound.
fn is_channel_sound(mem: &[u32], channel: u32) -> bool
    requires { (Framed (length mem.now) (word mem.now count)) × (1 ≤ channel) × (channel ≤ word mem.now count) }
    ensures { result ≡ sound (block mem.now channel) }
{
    let from = MODULE_WORDS + ((channel - 1) as usize) * WORDS;
    let to = from + WORDS;
    block::ranges::is_sound(&mem[from..to])
}

// Whether every channel's block is sound.
fn are_sound(mem: &[u32]) -> bool
    requires { Framed (length mem.now) (word mem.now count) }
    ensures { result ≡ sound_to mem.now (word mem.now count) }
{
    let count = mem[COUNT];
    let mut sound = true;
    for tested in 0..count {
        sound &= is_channel_sound(mem, tested + 1);
    }
    sound
}

// The refusal for what the memory holds.
pub fn wide_refusal(mem: &[u32]) -> Result<(), Refusal>
    ensures { number_of result ≡ wide_refusal mem.now }
{
    part_refusal(mem)?;
    if are_sound(mem) {
        return Ok(());
    }
    Err(Refusal::Unsound)
}
