// The initiated test of a channel, and a channel's part of a module reset.
#![tactic(auto)]

ghost use Rattle.std.specs.Prelude.{◌≡◌};
ghost use Rattle.block.specs.Layout.{Whole};
ghost use Rattle.restart.specs.Tests.{fifos_cleared, tested, block_reset};

use block::layout::{ENABLE, LATCH, LEVEL_MASK};
use fifos::clearing::{clear_receive, clear_transmit, forget, stop, unmark};
use settings::factory::reset_settings;
use status::rule::FAULT;

// Clears both FIFOs and counts what they held.
fn clear_fifos(block: &mut [u32])
    requires { Whole block.old }
    ensures { block.new ≡ fifos_cleared block.old }
{
    clear_receive(block);
    clear_transmit(block);
}

// Runs the initiated test with its result as the call gives it: 0 passed, 1 failed.
#[tactic(auto, unfolding(crate::specs::Tests::tested))]
pub fn initiated_test(block: &mut [u32], res: u32)
    requires { Whole block.old }
    ensures { block.new ≡ tested res block.old }
{
    let latch = block[LATCH];
    clear_fifos(block);
    stop(block);
    unmark(block);
    if res == 0 {
        return;
    }
    block[LATCH] = latch % FAULT + FAULT;
}

// The channel's part of a module reset. The rule is not run.
#[tactic(auto, unfolding(crate::specs::Tests::block_reset))]
pub fn reset(block: &mut [u32])
    requires { Whole block.old }
    ensures { block.new ≡ block_reset block.old }
{
    clear_fifos(block);
    forget(block);
    reset_settings(block);
    block[LATCH] = 0;
    block[ENABLE] = 0;
    block[LEVEL_MASK] = 0;
}
