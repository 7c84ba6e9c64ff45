// The calls that change the transmitter's state.
ghost use Rattle.std.specs.Prelude.{◌≡◌};
ghost use Rattle.block.specs.Ranges.{Usable};
ghost use Rattle.transmit_controls.specs.States.{after_trigger, after_pause};

use block::layout::{STATE, TRANSMIT_MODE};
use block::modes::IMMEDIATE;
use schedule::{IDLE, PAUSED, RUNNING};

// Sets the transmitter running. The caller has tested that it is on.
pub fn trigger(block: &mut [u32])
    requires { Usable block.old }
    ensures { block.new ≡ after_trigger block.old }
{
    block[STATE] = RUNNING;
}

// Pauses a running transmitter; in immediate mode an idle one too.
#[tactic(auto, unfolding(crate::specs::States::after_pause))]
pub fn pause(block: &mut [u32])
    requires { Usable block.old }
    ensures { block.new ≡ after_pause block.old }
{
    if block[STATE] == RUNNING {
        block[STATE] = PAUSED;
        return;
    }
    if block[TRANSMIT_MODE] == IMMEDIATE {
        if block[STATE] == IDLE {
            block[STATE] = PAUSED;
            return;
        }
        return;
    }
}
