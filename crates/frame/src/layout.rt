// Where the words of the module part stand. The channels' blocks follow, channel 1 first.
ghost use Rattle.std.specs.Prelude.{◌≡◌, ◌≤◌};
ghost use Rattle.frame.specs.Layout.{need, most};

use block::layout::WORDS;

pub const COUNT: usize = 0;

pub const STAMP: usize = COUNT + 1;

pub const RESOLUTION: usize = STAMP + 1;

pub const THRESHOLD: usize = RESOLUTION + 1;

// The twelve fault counters, also those of unused channels.
pub const COUNTERS: usize = THRESHOLD + 1;

// The layout number, and its value in this layout.
pub const LAYOUT: usize = COUNTERS + (MOST as usize);

pub const LAYOUT_NUMBER: u32 = 2;

// The words of the module part. Where a channel's block begins and ends is written out where it is lent: a function of it would put one
// equation more into each proof that goes from such a slice to `with_block`.
pub const MODULE_WORDS: usize = LAYOUT + 1;

// The most channels that a module has.
pub const MOST: u32 = 12;

// The words that a module of `count` channels needs.
pub fn need(count: u32) -> usize
    requires { count ≤ most }
    ensures { result ≡ need count }
{
    MODULE_WORDS + (count as usize) * WORDS
}
