// When a module's memory is refused: short, unsound, or no such channel.
ghost use Rattle.std.specs.Prelude.{◌≡◌, ◌≤◌, ◌<◌, length};
ghost use Rattle.block.specs.Ranges.{within};
ghost use Rattle.block.specs.Refusals.{number_of};
ghost use Rattle.frame.specs.Layout.{module_words};
ghost use Rattle.frame.specs.Refusals.{frame_refusal, part_leasts, part_greatests, part_sound, part_refusal, address_refusal};

use crate::counters::TOP;
use crate::layout::{COUNT, LAYOUT_NUMBER, MODULE_WORDS, MOST};
use block::layout::WORDS;
use block::refusal::Refusal;

// The ranges of the module part's settings.
pub const RESOLUTION_GREATEST: u32 = 3;

pub const THRESHOLD_LEAST: u32 = 1;

pub const THRESHOLD_GREATEST: u32 = 65535;

// Two tables and a loop by `while`: over one table of pairs, by `for`, the test takes four times as long, and the cost of a call misses its bar.
const LEAST: [u32; MODULE_WORDS] = [
    1,
    0,
    0,
    THRESHOLD_LEAST,
    0,
    0,
    0,
    0,
    0,
    0,
    0,
    0,
    0,
    0,
    0,
    0,
    LAYOUT_NUMBER,
];

const GREATEST: [u32; MODULE_WORDS] = [
    MOST,
    0xFFFF_FFFF,
    RESOLUTION_GREATEST,
    THRESHOLD_GREATEST,
    TOP,
    TOP,
    TOP,
    TOP,
    TOP,
    TOP,
    TOP,
    TOP,
    TOP,
    TOP,
    TOP,
    TOP,
    LAYOUT_NUMBER,
];

// The refusal of memory that is too short, or whose stored count is outside 1 to 12.
fn frame_refusal(mem: &[u32]) -> Result<(), Refusal>
    ensures { number_of result ≡ frame_refusal mem.now }
{
    if mem.len() < MODULE_WORDS {
        return Err(Refusal::Short);
    }
    let count = mem[COUNT];
    if count < 1 {
        return Err(Refusal::Unsound);
    }
    if MOST < count {
        return Err(Refusal::Unsound);
    }
    if mem.len() < MODULE_WORDS + (count as usize) * WORDS {
        return Err(Refusal::Short);
    }
    Ok(())
}

// Whether a number is in the range of a word of the module part: stored numbers and arguments have the same.
pub fn in_part(at: usize, value: u32) -> bool
    requires { at < module_words }
    ensures { result ≡ within part_leasts part_greatests at value }
{
    (LEAST[at] <= value) & (value <= GREATEST[at])
}

// Whether every word of the module part is in its range. Every word is tested, with no branch between them.
fn is_part_sound(mem: &[u32]) -> bool
    requires { module_words ≤ length mem.now }
    ensures { result ≡ part_sound mem.now }
{
    let mut sound = true;
    let mut at = 0;
    while at < MODULE_WORDS {
        sound = sound & in_part(at, mem[at]);
        at += 1;
    }
    sound
}

// The refusal of memory that is short or whose module part is unsound.
pub fn part_refusal(mem: &[u32]) -> Result<(), Refusal>
    ensures { number_of result ≡ part_refusal mem.now }
{
    frame_refusal(mem)?;
    if is_part_sound(mem) {
        return Ok(());
    }
    Err(Refusal::Unsound)
}

// The refusal of a call on a channel by its number, or for what the memory holds.
pub fn address_refusal(mem: &[u32], channel: u32) -> Result<(), Refusal>
    ensures { number_of result ≡ address_refusal mem.now channel }
{
    part_refusal(mem)?;
    if channel < 1 {
        return Err(Refusal::Channel);
    }
    if mem[COUNT] < channel {
        return Err(Refusal::Channel);
    }
    let from = MODULE_WORDS + ((channel - 1) as usize) * WORDS;
    let to = from + WORDS;
    if block::ranges::is_sound(&mem[from..to]) {
        return Ok(());
    }
    Err(Refusal::Unsound)
}
