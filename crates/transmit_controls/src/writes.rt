// What a host hands to the transmitter: a word for its FIFO, an async word.
ghost use Rattle.std.specs.Prelude.{◌≡◌};
ghost use Rattle.block.specs.Ranges.{Usable};
ghost use Rattle.transmit_controls.specs.Writes.{HasRoom, fifo_written, async_written};

use block::layout::{ASYNC_MARK, ASYNC_WORD};
use fifos::entries::{TRANSMIT, append};

// Accepts a word behind those that the transmit FIFO holds.
#[tactic(auto, using(fifos::proofs::Bounds::transmit_fits))]
pub fn write_fifo(block: &mut [u32], word: u32)
    requires { (Usable block.old) × (HasRoom block.old) }
    ensures { block.new ≡ fifo_written word block.old }
{
    append(block, TRANSMIT, [word]);
}

// Lets an async word wait.
pub fn write_async(block: &mut [u32], word: u32)
    requires { Usable block.old }
    ensures { block.new ≡ async_written word block.old }
{
    block[ASYNC_MARK] = 1;
    block[ASYNC_WORD] = word;
}
