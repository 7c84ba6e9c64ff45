// The match set: a bit for each of the 1,024 SDI/Label indices.
ghost use Rattle.std.specs.Prelude.{◌≡◌, ◌<◌, ◌≤◌};
ghost use Rattle.block.specs.Layout.{Whole, indexes};
ghost use Rattle.memories.specs.Matching.{matched, match_written};

use bits::with_bit;
use block::layout::MATCH_SET;

// Whether an index is in the match set: 1 or 0, the value that the call answers.
pub fn read(block: &[u32], index: u32) -> u32
    requires { (Whole block.now) × (index < indexes) }
    ensures { result ≡ matched index block.now }
{
    (block[MATCH_SET + ((index / 32) as usize)] >> (index % 32)) % 2
}

// Puts an index into the match set (1) or takes it out (0).
pub fn write(block: &mut [u32], index: u32, value: u32)
    requires { (Whole block.old) × (index < indexes) × (value ≤ 1) }
    ensures { block.new ≡ match_written index value block.old }
{
    let at = MATCH_SET + ((index / 32) as usize);
    block[at] = with_bit(block[at], index % 32, value);
}
