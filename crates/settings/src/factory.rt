// Factory values.
ghost use Rattle.std.specs.Prelude.{◌≡◌};
ghost use Rattle.block.specs.Layout.{Whole};
ghost use Rattle.settings.specs.Factory.{nonzero_to_factory, settings_to_factory};

use block::layout::{
    ALMOST_EMPTY, ALMOST_FULL, FIFO_KIND, MATCH, PARITY, RATE, RECEIVE_MODE, RECEIVE_SIZE,
    RECEIVER, STAMPS, TRANSMIT_MODE, TRANSMITTER,
};
use block::modes::{BOUNDED, FIFO_MODE, IMMEDIATE};
use ring::SLOTS;

// Puts the settings whose factory value is not 0 to it; a block of zeros needs no more.
pub fn reset_nonzero_settings(block: &mut [u32])
    requires { Whole block.old }
    ensures { block.new ≡ nonzero_to_factory block.old }
{
    block[PARITY] = 1;
    block[RECEIVE_SIZE] = SLOTS;
    block[ALMOST_FULL] = 128;
    block[ALMOST_EMPTY] = 32;
    block[RATE] = word::Gap::LEAST;
}

// Puts the settings back to their factory values.
pub fn reset_settings(block: &mut [u32])
    requires { Whole block.old }
    ensures { block.new ≡ settings_to_factory block.old }
{
    block[RECEIVER] = 0;
    block[TRANSMITTER] = 0;
    block[MATCH] = 0;
    block[STAMPS] = 0;
    block[RECEIVE_MODE] = FIFO_MODE;
    block[FIFO_KIND] = BOUNDED;
    block[TRANSMIT_MODE] = IMMEDIATE;
    reset_nonzero_settings(block);
}
